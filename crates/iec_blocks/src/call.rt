// Calls of a standard function block, and its replies.

ghost use Rattle.std.specs.Prelude.{◌≡◌, not, ◌&&◌};

/// A call of a standard function block, with all that its inputs hold. An input that the block
/// doesn't have makes no difference.
#[derive(Clone, Copy)]
pub struct Call {
    /// `IN`, `CLK`, `CU`, `S1` or `S`.
    pub signal: bool,
    /// `RESET`, `R` or `R1`.
    pub reset: bool,
    /// `PT` in microseconds, or `PV`.
    pub preset: i64,
    /// When it is made, in microseconds of the machine. From call to call it doesn't fall.
    pub time: u64,
}

/// The outputs of a standard function block after a call.
#[derive(Clone, Copy, Debug, PartialEq, Eq)]
pub struct Reply {
    /// `Q` or `Q1`.
    pub flag: bool,
    /// `ET` in microseconds, or `CV`; 0 where a block has neither.
    pub value: i64,
}

// Whether a signal rose since the last call.
pub(crate) fn rose(last: bool, signal: bool) -> bool
    ensures { result ≡ (signal && not last) }
{
    signal && !last
}

// Whether it fell.
pub(crate) fn fell(last: bool, signal: bool) -> bool
    ensures { result ≡ (last && not signal) }
{
    last && !signal
}
