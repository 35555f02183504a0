// What goes to a drive and comes from it in a cycle, as C lays it out, the drive's states and its
// mode.

/// Cyclic synchronous position mode (objects 6060h and 6061h).
pub const CYCLIC_SYNCHRONOUS_POSITION: i8 = 8;

/// What a drive answers in a cycle.
#[repr(C)]
#[derive(Clone, Copy, Debug, PartialEq, Eq)]
pub struct DriveIn {
    /// The position actual value, object 6064h, in drive increments.
    pub actual: i32,
    /// The statusword, object 6041h.
    pub statusword: u16,
    /// The mode of operation display, object 6061h; 8 is cyclic synchronous position.
    pub mode_display: i8,
}

/// An answer before it is given.
pub const NO_ANSWER: DriveIn = DriveIn {
    actual: 0,
    statusword: 0,
    mode_display: 0,
};

/// What a drive is given in a cycle.
#[repr(C)]
#[derive(Clone, Copy, Debug, PartialEq, Eq)]
pub struct DriveOut {
    /// The target position, object 607Ah, in drive increments.
    pub target: i32,
    /// The controlword, object 6040h.
    pub controlword: u16,
    /// The mode of operation, object 6060h; 8 is cyclic synchronous position.
    pub mode: i8,
}

/// What a drive is given before it is given anything.
pub const NO_OUTPUT: DriveOut = DriveOut {
    target: 0,
    controlword: 0,
    mode: 0,
};

/// The states of a drive (IEC 61800-7-201, the finite state automaton of CiA 402).
#[derive(Clone, Copy, Debug, PartialEq, Eq)]
pub enum DriveState {
    NotReady,
    SwitchOnDisabled,
    ReadyToSwitchOn,
    SwitchedOn,
    OperationEnabled,
    QuickStopActive,
    FaultReactionActive,
    Fault,
}
