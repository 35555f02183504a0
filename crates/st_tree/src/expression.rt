// Expressions.

use plc_types::Flag;

/// An expression: a DINT, a number of 32 bits with its sign, or a BOOL.
#[cycle(expression)]
#[derive(Drop)]
pub enum Expr {
    Number(i32),
    Truth(bool),
    /// A variable of the task, by its number.
    Variable(u32),
    /// A flag of the last reply of a block, by the block's number.
    Flag { instance: u16, flag: Flag },
    /// `-`, of a DINT.
    Negative(Box<Expr>),
    /// `NOT`, of a BOOL.
    Not(Box<Expr>),
    /// Operands of one level of the grammar, joined from the left.
    Chain { first: Box<Expr>, terms: Vec<Term> },
}

/// An operator and the operand after it.
#[cycle(expression)]
#[derive(Drop)]
pub struct Term {
    pub operator: Operator,
    pub operand: Expr,
}

/// What joins two operands.
#[derive(Clone, Copy, Debug, PartialEq, Eq)]
pub enum Operator {
    Or,
    And,
    /// `=`
    Equal,
    /// `<>`
    Different,
    /// `<`
    Below,
    /// `<=`
    AtMost,
    /// `>`
    Above,
    /// `>=`
    AtLeast,
    Plus,
    Minus,
    Times,
}
