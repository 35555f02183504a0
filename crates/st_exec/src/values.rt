// What expressions are worth: DINTs of 32 bits, and truths as 1 and 0.

ghost use Rattle.std.specs.Prelude.{◌≡◌};
ghost use Rattle.st_exec.specs.Values as spec;

use plc_types::{Outputs, is_shown};
use st_tree::{Flag, Operator};

/// A truth as a number.
#[tactic(auto, unfolding(crate::specs::Values::truth_of))]
pub fn truth_of(holds: bool) -> i32
    ensures { result ≡ spec.truth_of holds }
{
    if holds { 1 } else { 0 }
}

/// Whether a number is a truth that holds.
#[tactic(auto, unfolding(crate::specs::Values::is_true))]
pub fn is_true(value: i32) -> bool
    ensures { result ≡ spec.is_true value }
{
    value != 0
}

/// The contrary of a truth.
pub fn contrary_of(value: i32) -> i32
    ensures { result ≡ spec.contrary_of value }
{
    truth_of(!is_true(value))
}

/// The negative of a DINT; that of the least one is itself.
#[tactic(auto, using(std::proofs::lemmas::Int::wraps))]
pub fn negative_of(value: i32) -> i32
    ensures { result ≡ spec.negative_of value }
{
    value.wrapping_neg()
}

/// What an operator makes of two values; a DINT wraps at 32 bits.
#[tactic(auto, using(std::proofs::lemmas::Int::wraps))]
pub fn joined(operator: Operator, a: i32, b: i32) -> i32
    ensures { result ≡ spec.joined operator a b }
{
    match operator {
        Operator::Or => truth_of(is_true(a) || is_true(b)),
        Operator::And => truth_of(is_true(a) && is_true(b)),
        Operator::Equal => truth_of(a == b),
        Operator::Different => truth_of(a != b),
        Operator::Below => truth_of(a < b),
        Operator::AtMost => truth_of(a <= b),
        Operator::Above => truth_of(a > b),
        Operator::AtLeast => truth_of(a >= b),
        Operator::Plus => a.wrapping_add(b),
        Operator::Minus => a.wrapping_sub(b),
        Operator::Times => a.wrapping_mul(b),
    }
}

/// The outputs of a block that has not replied yet.
pub const SILENT: Outputs = Outputs {
    busy: false,
    active: false,
    done: false,
    aborted: false,
    error: false,
    error_id: 0,
    reached: false,
};

/// The value of a variable.
#[tactic(auto, unfolding(crate::specs::Values::variable_of))]
pub fn value_at(vars: &[i32], variable: usize) -> i32
    ensures { result ≡ spec.variable_of vars.now variable }
{
    vars.get(variable).copied().unwrap_or(0)
}

/// A flag of a block's last reply.
#[tactic(auto, unfolding(crate::specs::Values::shown_of))]
pub fn shown_of(last: &[Outputs], instance: u16, flag: Flag) -> i32
    ensures { result ≡ spec.shown_of last.now instance flag }
{
    let outputs = last.get(instance as usize).copied().unwrap_or(SILENT);
    truth_of(is_shown(flag, &outputs))
}
