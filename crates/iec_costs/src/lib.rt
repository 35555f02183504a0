//! The steps of a scan of a program in Structured Text (IEC 61131-3, in this project's profile),
//! counted while its nodes are read, and how often the body of a FOR runs. Begin with specs/Turns,
//! then specs/Steps.
#![tactic(auto)]

mod laws;
mod steps;
mod turns;

pub use laws::turns_reach_the_last;
pub use steps::{Frame, MOST_STEPS, Steps};
pub use turns::{Bounds, turns_of};
