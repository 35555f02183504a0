//! The drive state machine of CiA 402 (IEC 61800-7-201), in cyclic synchronous position mode. Here
//! are the statusword and the controlword, the states and the commands that they give, a drive's
//! transitions, and the controlword that the kernel gives next. It stands on `plc_types`. Begin at
//! [`next_controlword`] and [`drive_step`].
#![tactic(auto)]

mod command;
mod controlword;
mod laws;
mod statusword;
mod step;
#[cfg(test)]
mod tests;

pub use command::{Command, command_of};
pub use controlword::{
    DISABLE_VOLTAGE, ENABLE_OPERATION, FAULT_RESET, SHUTDOWN, SWITCH_ON, next_controlword,
};
pub use laws::{
    commanded_drives_become_enabled, fault_resets_leave_fault, faults_come_first,
    statuswords_are_read_back, steps_are_single_transitions,
};
pub use statusword::{state_of, status_of};
pub use step::drive_step;
