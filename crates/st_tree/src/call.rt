// What a call gives the inputs of its block.

use crate::expression::Expr;
use plc_types::BufferMode;

/// What a key of a call gives.
#[derive(Drop)]
pub enum Given {
    Number { key: Key, value: Expr },
    Mode(BufferMode),
    /// The number of the master axis.
    Master(u8),
}

/// The keys whose value is a DINT.
#[derive(Clone, Copy, Debug, PartialEq, Eq)]
pub enum Key {
    /// A position by its place, from 0: `pos` is that at 0, and so is `pos1`.
    Position(u8),
    Velocity,
    Acceleration,
    Deceleration,
    Jerk,
    Numerator,
    Denominator,
    Table,
}
