//! Instances of function blocks: what they show in their replies (PLCopen Motion Control Part 1,
//! general rules). An instance keeps whether Execute was high, and the progress of its command;
//! what it shows is a function of both. It stands on `plc_types` and `command_pool`. Begin at
//! [`Instance`].
#![tactic(auto)]

mod instance;
mod laws;
mod reply;

pub use command_pool::{Finish, Rates, Refusal};
pub use instance::{Edge, Instance, Progress};
pub use laws::replies_tell_one_result;
