// Whole numbers: wrapped to a type's bits, divided toward zero, ended at a type's bounds, rounded.

ghost use Rattle.std.specs.Prelude.{◌≡◌, ◌≤◌, ◌^◌, unsigned_abs};
ghost use Rattle.std.specs.Int.{int_wrap, w16, w32};
ghost use Rattle.iec_tree.specs.declared.elementary.Elementary.TheVariants.{Int, Dint};
ghost use Rattle.iec_values.specs.Numbers as spec;
ghost use Rattle.iec_values.specs.Types.{Holds};

use crate::types::{greatest, least};
use iec_tree::Elementary;

/// A number wrapped to 16 bits.
pub fn wrapped_to_int(number: i128) -> i64
    ensures value { result ≡ int_wrap w16 number }
    ensures holds { Holds Int result }
{
    let low = number.rem_euclid(65_536) as u16;
    i64::from(low.cast_signed())
}

/// A number wrapped to 32 bits.
pub fn wrapped_to_dint(number: i128) -> i64
    ensures value { result ≡ int_wrap w32 number }
    ensures holds { Holds Dint result }
{
    let low = number.rem_euclid(4_294_967_296) as u32;
    i64::from(low.cast_signed())
}

/// The quotient toward zero; by 0 it is 0.
#[tactic(auto, unfolding(crate::specs::Numbers::quotient))]
pub fn quotient(dividend: i128, divisor: i128) -> i128
    requires { unsigned_abs dividend ≤ 2 ^ 126 }
    ensures value { result ≡ spec.quotient dividend divisor }
    ensures size { unsigned_abs result ≤ unsigned_abs dividend }
{
    if divisor == 0 { 0 } else { dividend / divisor }
}

/// What the quotient toward zero leaves; by 0 it is 0.
#[tactic(auto, unfolding(crate::specs::Numbers::remainder))]
pub fn remainder(dividend: i128, divisor: i128) -> i128
    requires { unsigned_abs dividend ≤ 2 ^ 126 }
    ensures value { result ≡ spec.remainder dividend divisor }
    ensures size { unsigned_abs result ≤ unsigned_abs dividend }
{
    if divisor == 0 { 0 } else { dividend % divisor }
}

/// The value of a type that is nearest to a number.
#[tactic(auto, unfolding(crate::specs::Numbers::nearest))]
pub fn nearest(of: Elementary, number: i128) -> i64
    ensures value { result ≡ spec.nearest of number }
    ensures holds { Holds of result }
{
    number.clamp(i128::from(least(of)), i128::from(greatest(of))) as i64
}

/// Billionths as the nearest whole number, halves away from zero.
#[tactic(auto, unfolding(crate::specs::Numbers::rounded))]
pub fn rounded(billionths: i64) -> i64
    ensures { result ≡ spec.rounded billionths }
{
    let size = (billionths.unsigned_abs() + 500_000_000) / 1_000_000_000;
    if billionths < 0 {
        -(size as i64)
    } else {
        size as i64
    }
}
