// What is fed to a standby, and what comes of it.

use plc_types::{DriveIn, Inputs};

/// An event of a kernel, as its first kernel made it.
#[derive(Clone, Copy, Debug, PartialEq, Eq)]
pub enum FedEvent {
    /// A call of a block, by the task that it belongs to.
    Call {
        task: u8,
        instance: u16,
        inputs: Inputs,
    },
    /// A cycle: how many drives answer, and their answers, the first ones of sixteen.
    Cycle {
        count: u8,
        ins: [DriveIn; 16],
    },
    /// The end of a task.
    End {
        task: u8,
    },
}

/// What came of taking an event.
#[derive(Clone, Copy, Debug, PartialEq, Eq)]
pub enum Fed {
    /// None was there.
    Empty,
    /// One was taken and made.
    Applied,
    /// One was taken that breaks a condition of the kernel; it was not made.
    Stranger(FedEvent),
}
