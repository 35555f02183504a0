// What a call of a function block shows.

/// The outputs that a call shows.
#[derive(Clone, Copy, Debug, PartialEq, Eq)]
pub struct Outputs {
    /// From the admitted edge to the result.
    pub busy: bool,
    /// While the block's command is the active one.
    pub active: bool,
    pub done: bool,
    /// CommandAborted.
    pub aborted: bool,
    pub error: bool,
    /// The ErrorID, 0 where there is no error.
    pub error_id: u16,
    /// InVelocity, InGear, InSync, or the Status of a Power.
    pub reached: bool,
}
