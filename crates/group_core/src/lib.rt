//! One group of the kernel: what its commands, a Power off of a member and each cycle make of it
//! (PLCopen Motion Control Part 4). A group moves a place along its path, which is an axis of its
//! own from 0 to the path's length, and gives each member its place. It stands on `linear_path` for
//! paths, on `trapezoid_plan` for steps, on `axis_state` and `group_state`, and on `buffer_modes`.
//! Begin at [`Group`] and `one_group`; each block has its file in `blocks`.
#![tactic(auto)]

mod blocks;
mod calls;
mod cycles;
mod group;
mod kinds;
mod laws;
mod look;
mod moving;
mod one_group;
mod owners;
mod path_laws;
mod reason;
mod refusing;
mod states;
mod taking_over;
mod target_laws;

pub use buffer_modes::PendingReset;
pub use command_pool::{
    CommandPool, Finish, Follow, Note, Notes, OutOfMemory, Rates, Refusal, Wanted,
};
pub use group::{Group, GroupOnPath, Motion, Track};
pub use laws::{
    courses_end_in_time, errors_are_those_of_axes, errors_stand_in_error_stop, groups_stay_kept,
    members_keep_their_limits, paths_go_on_by_their_steps,
};
pub use linear_path::{LinePath, Path};
pub use look::{ActiveLook, GroupLook, GroupStep};
pub use one_group::GroupCore;
pub use path_laws::{
    groups_come_alive_by_enable_and_reset, groups_keep_their_axes, paths_change_by_commands,
};
pub use plc_types::{AxisState, BlockKind, BufferMode, GroupRow, GroupState, Limits};
pub use reason::Reason;
pub use target_laws::lines_lead_to_their_targets;
