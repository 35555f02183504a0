//! The simulated drive: a drive of CiA 402 in cyclic synchronous position mode that follows its
//! targets with a lag and has faults in given steps. It stands on `cia402_machine`, whose
//! transitions it makes, and on `circular_buffer`, which holds the targets that it has still to
//! follow. Begin at [`Drive`].
#![tactic(auto)]

mod drive;
mod laws;
mod steps;

pub use drive::Drive;
pub use laws::{
    answers_come_one_cycle_later, lags_are_counted_in_kept_targets, other_steps_forget_targets,
    steps_are_counted,
};
pub use motion_numbers::OutOfMemory;
pub use plc_types::{DriveIn, DriveOut, DriveState};
