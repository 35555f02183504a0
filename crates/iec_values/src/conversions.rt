// How a value is changed where it widens, and where it is stored.

ghost use Rattle.std.specs.Prelude.{◌≡◌};
ghost use Rattle.iec_values.specs.Conversions as spec;

use crate::changes::Change;
use crate::types::widens;
use iec_tree::Elementary;

// How a value that widens is changed.
fn widened(from: Elementary, to: Elementary) -> Change
    ensures { result ≡ spec.widened from to }
{
    match from {
        Elementary::Int | Elementary::Dint => match to {
            Elementary::Lreal => Change::DintToLreal,
            _ => Change::Keep,
        },
        _ => Change::Keep,
    }
}

// How a value that is stored is changed.
fn stored(from: Elementary, to: Elementary) -> Change
    ensures { result ≡ spec.stored from to }
{
    match from {
        Elementary::Int => match to {
            Elementary::Int => Change::ToInt,
            _ => widened(from, to),
        },
        _ => widened(from, to),
    }
}

/// How an expression of one type is changed where another type is asked for, if it widens to it.
/// The number stays the same.
pub fn widening(from: Elementary, to: Elementary) -> Option<Change>
    ensures { result ≡ spec.widening_of from to }
{
    if widens(from, to) {
        Some(widened(from, to))
    } else {
        None
    }
}

/// How an expression of one type is changed where it is stored in a place of another, if it widens
/// to it.
pub fn storing(from: Elementary, to: Elementary) -> Option<Change>
    ensures { result ≡ spec.storing_of from to }
{
    if widens(from, to) {
        Some(stored(from, to))
    } else {
        None
    }
}
