// Operations: what is made of two values whose types are known.

ghost use Rattle.std.specs.Prelude.{◌≡◌, ◌⊎◌, IfSome, None};
ghost use Rattle.iec_values.specs.Operations.{operation_type, operation_value};
ghost use Rattle.iec_values.specs.Types.{Holds};

use crate::arithmetic::{
    bounded_difference, bounded_product, bounded_sum, dint_difference, dint_product, dint_quotient,
    dint_remainder, dint_sum, lreal_product, lreal_quotient, time_quotient,
};
use crate::truths::{is_true, truth_of};
use iec_tree::Elementary;

/// What is made of two values. INTs are computed as DINTs.
#[derive(Clone, Copy)]
pub enum Operation {
    Or,
    Xor,
    And,
    Equal,
    Different,
    Below,
    AtMost,
    Above,
    AtLeast,
    DintPlus,
    DintMinus,
    DintTimes,
    DintOver,
    DintMod,
    LrealPlus,
    LrealMinus,
    LrealTimes,
    LrealOver,
    TimePlus,
    TimeMinus,
    /// A TIME times a whole number.
    TimeTimes,
    /// A TIME by a whole number.
    TimeOver,
    /// The less of two values of one type.
    Least,
    /// The greater of two values of one type.
    Greatest,
}

/// What an operation makes of two values.
pub fn apply(operation: Operation, a: i64, b: i64) -> i64
    ensures value { result ≡ operation_value operation a b }
    ensures holds { IfSome (operation_type operation) (λ t. Holds t result) }
    ensures picks { operation_type operation ≡ None → (result ≡ a) ⊎ (result ≡ b) }
{
    match operation {
        Operation::Or => truth_of(is_true(a) || is_true(b)),
        Operation::Xor => truth_of(is_true(a) != is_true(b)),
        Operation::And => truth_of(is_true(a) && is_true(b)),
        Operation::Equal => truth_of(a == b),
        Operation::Different => truth_of(a != b),
        Operation::Below => truth_of(a < b),
        Operation::AtMost => truth_of(a <= b),
        Operation::Above => truth_of(a > b),
        Operation::AtLeast => truth_of(a >= b),
        Operation::DintPlus => dint_sum(a, b),
        Operation::DintMinus => dint_difference(a, b),
        Operation::DintTimes => dint_product(a, b),
        Operation::DintOver => dint_quotient(a, b),
        Operation::DintMod => dint_remainder(a, b),
        Operation::LrealPlus => bounded_sum(Elementary::Lreal, a, b),
        Operation::LrealMinus => bounded_difference(Elementary::Lreal, a, b),
        Operation::LrealTimes => lreal_product(a, b),
        Operation::LrealOver => lreal_quotient(a, b),
        Operation::TimePlus => bounded_sum(Elementary::Time, a, b),
        Operation::TimeMinus => bounded_difference(Elementary::Time, a, b),
        Operation::TimeTimes => bounded_product(Elementary::Time, a, b),
        Operation::TimeOver => time_quotient(a, b),
        Operation::Least => a.min(b),
        Operation::Greatest => a.max(b),
    }
}
