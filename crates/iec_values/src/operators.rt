// Operators: which there are for operands of each type, and what they give.

ghost use Rattle.std.specs.Prelude.{◌≡◌, if◌then◌else◌, None};
ghost use Rattle.iec_tree.specs.declared.elementary.Elementary.TheVariants as type;
ghost use Rattle.iec_values.specs.Operators as spec;
ghost use Rattle.iec_values.specs.Operations.{operation_type};
ghost use Rattle.iec_values.specs.Types.{widens};

use crate::changes::Change;
use crate::operations::Operation;
use crate::types::{common_type, widens};
use iec_tree::{Elementary, Operator};

/// What an operator makes of two operands: the operation, the types to which they widen, and that
/// of the result.
#[derive(Clone, Copy)]
pub struct Join {
    pub operation: Operation,
    pub left: Elementary,
    pub right: Elementary,
    pub result: Elementary,
}

// Comparisons of two values of one type.
fn comparison_of(operator: Operator) -> Option<Operation>
    ensures { result ≡ spec.comparison_of operator }
{
    match operator {
        Operator::Equal => Some(Operation::Equal),
        Operator::Different => Some(Operation::Different),
        Operator::Below => Some(Operation::Below),
        Operator::AtMost => Some(Operation::AtMost),
        Operator::Above => Some(Operation::Above),
        Operator::AtLeast => Some(Operation::AtLeast),
        _ => None,
    }
}

// Operators of two BOOLs.
fn of_bools(operator: Operator) -> Option<Operation>
    ensures { result ≡ spec.operation_of type.Bool operator }
{
    match operator {
        Operator::Or => Some(Operation::Or),
        Operator::Xor => Some(Operation::Xor),
        Operator::And => Some(Operation::And),
        Operator::Equal => Some(Operation::Equal),
        Operator::Different => Some(Operation::Different),
        _ => None,
    }
}

// Operators of two whole numbers.
fn of_wholes(operator: Operator) -> Option<Operation>
    ensures dints { result ≡ spec.operation_of type.Dint operator }
    ensures ints { result ≡ spec.operation_of type.Int operator }
{
    match operator {
        Operator::Plus => Some(Operation::DintPlus),
        Operator::Minus => Some(Operation::DintMinus),
        Operator::Times => Some(Operation::DintTimes),
        Operator::Over => Some(Operation::DintOver),
        Operator::Mod => Some(Operation::DintMod),
        _ => comparison_of(operator),
    }
}

// Operators of two LREALs.
fn of_lreals(operator: Operator) -> Option<Operation>
    ensures { result ≡ spec.operation_of type.Lreal operator }
{
    match operator {
        Operator::Plus => Some(Operation::LrealPlus),
        Operator::Minus => Some(Operation::LrealMinus),
        Operator::Times => Some(Operation::LrealTimes),
        Operator::Over => Some(Operation::LrealOver),
        _ => comparison_of(operator),
    }
}

// Operators of two TIMEs.
fn of_times(operator: Operator) -> Option<Operation>
    ensures { result ≡ spec.operation_of type.Time operator }
{
    match operator {
        Operator::Plus => Some(Operation::TimePlus),
        Operator::Minus => Some(Operation::TimeMinus),
        _ => comparison_of(operator),
    }
}

// The operation of an operator on two operands of one type.
fn operation_of(of: Elementary, operator: Operator) -> Option<Operation>
    ensures { result ≡ spec.operation_of of operator }
{
    match of {
        Elementary::Bool => of_bools(operator),
        Elementary::Int | Elementary::Dint => of_wholes(operator),
        Elementary::Lreal => of_lreals(operator),
        Elementary::Time => of_times(operator),
    }
}

// The type of what an operation makes of two operands of one type.
fn result_of(operation: Operation, of: Elementary) -> Elementary
    ensures { result ≡ spec.result_of (operation_type operation) of }
{
    match operation {
        Operation::Or
        | Operation::Xor
        | Operation::And
        | Operation::Equal
        | Operation::Different
        | Operation::Below
        | Operation::AtMost
        | Operation::Above
        | Operation::AtLeast => Elementary::Bool,
        _ => of,
    }
}

// Two operands that widen to one type.
#[tactic(auto, unfolding(crate::specs::Operators::paired_of))]
fn paired(operator: Operator, of: Elementary) -> Option<Join>
    ensures { result ≡ spec.paired_of operator of }
{
    let operation = operation_of(of, operator)?;
    Some(Join {
        operation,
        left: of,
        right: of,
        result: result_of(operation, of),
    })
}

// A TIME on the left of a whole number.
#[tactic(auto, unfolding(crate::specs::Operators::scaled_of))]
fn scaled(operator: Operator, left: Elementary) -> Option<Join>
    ensures { result ≡ spec.scaled_of operator left }
{
    let operation = match operator {
        Operator::Times => Operation::TimeTimes,
        Operator::Over => Operation::TimeOver,
        _ => return None,
    };
    match left {
        Elementary::Time => Some(Join {
            operation,
            left: Elementary::Time,
            right: Elementary::Dint,
            result: Elementary::Time,
        }),
        _ => None,
    }
}

// A TIME on the left of an operand that is a whole number.
fn scaled_by(operator: Operator, left: Elementary, right: Elementary) -> Option<Join>
    ensures { result ≡ (if widens right type.Dint then spec.scaled_of operator left else None) }
{
    if widens(right, Elementary::Dint) {
        scaled(operator, left)
    } else {
        None
    }
}

/// What an operator makes of two operands by their types, if it is for them.
#[tactic(auto, unfolding(crate::specs::Operators::join_of))]
pub fn join_of(operator: Operator, left: Elementary, right: Elementary) -> Option<Join>
    ensures { result ≡ spec.join_of operator left right }
{
    match scaled_by(operator, left, right) {
        Some(scaled) => Some(scaled),
        None => paired(operator, common_type(&[left, right])?),
    }
}

/// The minus of a value of a type, if there is one; the result has the same type.
pub fn negative_of(of: Elementary) -> Option<Change>
    ensures { result ≡ spec.negative_of of }
{
    match of {
        Elementary::Bool => None,
        Elementary::Int | Elementary::Dint => Some(Change::DintMinus),
        Elementary::Lreal => Some(Change::LrealMinus),
        Elementary::Time => Some(Change::TimeMinus),
    }
}

/// The NOT of a value of a type, if there is one; the result has the same type.
pub fn contrary_of(of: Elementary) -> Option<Change>
    ensures { result ≡ spec.contrary_of of }
{
    match of {
        Elementary::Bool => Some(Change::Not),
        _ => None,
    }
}
