// Changes: what is made of one value whose type is known.

ghost use Rattle.std.specs.Prelude.{◌≡◌, IfSome, None};
ghost use Rattle.iec_tree.specs.declared.elementary.Elementary.TheVariants.{Dint, Lreal};
ghost use Rattle.iec_values.specs.Changes.{change_type, change_value};
ghost use Rattle.iec_values.specs.Types.{Holds};
ghost use Rattle.iec_values.specs.declared.changes.Change.TheVariants.{IntToLreal, TimeToDint};

use crate::arithmetic::{bounded_negative, bounded_product, bounded_size, dint_negative};
use crate::numbers::{nearest, quotient, rounded, wrapped_to_int};
use crate::truths::{is_true, truth_of};
use iec_tree::Elementary;

/// What is made of one value.
#[derive(Clone, Copy)]
pub enum Change {
    /// The value as it is.
    Keep,
    /// 1 or 0.
    Truth,
    Not,
    /// Wrapped to 16 bits.
    ToInt,
    DintMinus,
    DintAbs,
    LrealMinus,
    LrealAbs,
    TimeMinus,
    /// Wrapped to 16 bits, then an LREAL.
    IntToLreal,
    DintToLreal,
    LrealToDint,
    LrealToInt,
    TimeToDint,
    DintToTime,
}

/// What a change makes of a value.
pub fn changed(change: Change, value: i64) -> i64
    ensures value { result ≡ change_value change value }
    ensures holds { IfSome (change_type change) (λ t. Holds t result) }
    ensures keeps { change_type change ≡ None → result ≡ value }
{
    match change {
        Change::Keep => value,
        Change::Truth => truth_of(is_true(value)),
        Change::Not => truth_of(!is_true(value)),
        Change::ToInt => wrapped_to_int(i128::from(value)),
        Change::DintMinus => dint_negative(value),
        Change::DintAbs => bounded_size(Elementary::Dint, value),
        Change::LrealMinus => bounded_negative(Elementary::Lreal, value),
        Change::LrealAbs => bounded_size(Elementary::Lreal, value),
        Change::TimeMinus => bounded_negative(Elementary::Time, value),
        Change::IntToLreal => int_to_lreal(value),
        Change::DintToLreal => bounded_product(Elementary::Lreal, value, 1_000_000_000),
        Change::LrealToDint => nearest(Elementary::Dint, i128::from(rounded(value))),
        Change::LrealToInt => nearest(Elementary::Int, i128::from(rounded(value))),
        Change::TimeToDint => time_to_dint(value),
        Change::DintToTime => bounded_product(Elementary::Time, value, 1000),
    }
}

// An INT, wrapped to 16 bits, as an LREAL.
fn int_to_lreal(value: i64) -> i64
    ensures value { result ≡ change_value IntToLreal value }
    ensures holds { Holds Lreal result }
{
    bounded_product(
        Elementary::Lreal,
        wrapped_to_int(i128::from(value)),
        1_000_000_000,
    )
}

// A TIME as milliseconds.
fn time_to_dint(value: i64) -> i64
    ensures value { result ≡ change_value TimeToDint value }
    ensures holds { Holds Dint result }
{
    nearest(Elementary::Dint, quotient(i128::from(value), 1000))
}
