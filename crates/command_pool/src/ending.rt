// How a command ends, and why a block call is refused.

/// How a command ended (PLCopen Motion Control Part 1, the outputs Done, CommandAborted and Error).
#[derive(Clone, Copy, Debug, PartialEq, Eq)]
pub enum Finish {
    Done,
    Aborted,
    /// The ErrorID: 1 to 19 for a refused call, 101 to 106 for an axis error.
    Error(u16),
}

/// Why a block call is refused.
#[derive(Clone, Copy, Debug, PartialEq, Eq)]
pub struct Refusal {
    /// The ErrorID, from 1 to 19.
    pub number: u16,
}
