//! How a command joins those of its axis or group: by its buffer mode it ends them, waits after
//! them, or is refused. Here stands once what axes and groups have in common: the active command,
//! those that wait, the pending reset, and who owns what. It stands on `command_pool`. Begin at
//! [`admit`] and [`take_over`].
#![tactic(auto)]

mod joining;
mod laws;
mod reset;

pub use joining::{QueueFull, abort_all, admit, take_over};
pub use laws::{ends_tell_their_owners, fates_are_of_the_active_command, owners_are_taken_away};
pub use reset::{PendingReset, disown_active, disown_reset, tell_reset};
