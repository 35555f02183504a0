// Operators of two operands.

/// What joins two operands.
#[derive(Clone, Copy, Debug, PartialEq, Eq)]
pub enum Operator {
    Or,
    Xor,
    And,
    /// `=`
    Equal,
    /// `<>`
    Different,
    /// `<`
    Below,
    /// `<=`
    AtMost,
    /// `>`
    Above,
    /// `>=`
    AtLeast,
    Plus,
    Minus,
    Times,
    Over,
    Mod,
}
