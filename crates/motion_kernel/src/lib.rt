//! The motion kernel: block calls, cycles and ends of tasks, each one entry of a history whose
//! replay is the kernel's state. It stands on `axis_core` and `group_core`, which decide, and on
//! `motion_history`, which keeps; what is here is who is asked, in which order, and who is
//! notified. Begin at [`Kernel`]: its contracts say each entry in full. The laws over histories are
//! in `motion_laws`.
#![tactic(auto)]

mod answering;
mod asking;
mod axis_calls;
mod axis_cycles;
mod axis_looks;
mod block_calls;
mod count_laws;
mod detaching;
mod drive_answers;
mod group_calls;
mod group_cycles;
mod group_looks;
mod kernel;
mod laws;
mod layout;
mod leading;
mod machine_cycle;
mod masters;
mod memberships;
mod opening;
mod owner_laws;
mod parts;
mod polled;
mod segment;
mod segment_laws;
mod segmented;
mod showing;
mod start;
mod tasks;
mod telling;

pub use count_laws::rows_are_counted;
pub use kernel::{Kernel, OpenFault};
pub use laws::machines_stay_kept;
pub use layout::members_in;
pub use memberships::{Membership, membership_of};
pub use motion_history::{Config, DriveIn, DriveOut, History, Inputs, Outputs};
pub use owner_laws::owners_have_blocks;
pub use segment::{Before, Segment};
pub use segment_laws::segments_join;
pub use segmented::SegmentedKernel;
pub use start::Start;
