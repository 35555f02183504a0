//! Whether an axis, and a whole machine, that is described by values satisfies the invariant, so
//! that a kernel can go on from it. Each test is exact: it says yes of these and of no others. It
//! stands on `motion_kernel`, whose definitions give the invariant. Begin at [`is_axis_kept`],
//! [`is_machine_kept`] and [`have_owners_blocks`].
#![tactic(auto)]

mod axis;
mod counts;
mod group;
mod limits;
mod machine;
mod owners;
mod states;

pub use axis::is_axis_kept;
pub use machine::is_machine_kept;
pub use owners::{are_commands_shown, have_kinds_of_blocks, have_owners_blocks};
pub use states::{are_axes_in_state, are_groups_in_state};
