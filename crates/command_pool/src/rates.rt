// The rates of a command.

/// A command's Velocity, Acceleration and Deceleration, in internal units per cycle and per cycle
/// per cycle. As the inputs of a call they are any numbers, of a command that is accepted they are
/// in range.
#[derive(Clone, Copy, Debug, PartialEq, Eq)]
pub struct Rates {
    /// The greatest step of a move, in range from 1 to 10^10 internal units per cycle.
    pub v: i64,
    /// The greatest rise of the step from one cycle to the next, in range from 1 to 10^10.
    pub a: i64,
    /// The greatest fall of the step from one cycle to the next, in range from 1 to 10^10.
    pub d: i64,
}
