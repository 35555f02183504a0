//! The standard function blocks of Structured Text (IEC 61131-3, in this project's profile):
//! timers, triggers, the up counter and the bistables, as steps on values. What a block replies to
//! a call is defined over the list of its calls; what it keeps between calls follows from that list
//! too. It stands on `iec_tree`. Begin at [`Block`].
#![tactic(auto)]

mod bistable;
mod block;
mod call;
mod counter;
mod inputs;
mod laws;
mod pulse;
mod timer;
mod trigger;

pub use bistable::Bistable;
pub use block::Block;
pub use call::{Call, Reply};
pub use counter::Counter;
pub use iec_tree::{Elementary, Standard};
pub use inputs::{Input, Output, input_named, input_type, output_named, output_type};
pub use laws::{names_are_read_back, replies_hold_their_types};
pub use pulse::Pulse;
pub use timer::Timer;
pub use trigger::Trigger;
