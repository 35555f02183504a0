// Arithmetic of each type: of numbers of 64 bits, whatever they are, so that nothing need be known
// of them.

ghost use Rattle.std.specs.Prelude.{◌≡◌, ◌≤◌, ◌^◌, ◌+ℤ◌, ◌-ℤ◌, ◌*ℤ◌, pos, neg_ℤ, unsigned_abs};
ghost use Rattle.std.specs.Int.{int_wrap, w32};
ghost use Rattle.iec_tree.specs.declared.elementary.Elementary.TheVariants as type;
ghost use Rattle.iec_values.specs.Numbers as spec;
ghost use Rattle.iec_values.specs.Types.{Holds};

use crate::numbers::{nearest, quotient, remainder, wrapped_to_dint};
use iec_tree::Elementary;

// The billionths in one.
const BILLION: i64 = 1_000_000_000;

/// The exact sum.
pub fn sum(a: i64, b: i64) -> i128
    ensures { result ≡ a +ℤ b }
{
    i128::from(a) + i128::from(b)
}

/// The exact difference.
pub fn difference(a: i64, b: i64) -> i128
    ensures { result ≡ a -ℤ b }
{
    i128::from(a) - i128::from(b)
}

/// The exact product.
pub fn product(a: i64, b: i64) -> i128
    ensures value { result ≡ a *ℤ b }
    ensures size { unsigned_abs result ≤ 2 ^ 126 }
{
    i128::from(a) * i128::from(b)
}

/// The sum of two DINTs.
pub fn dint_sum(a: i64, b: i64) -> i64
    ensures value { result ≡ int_wrap w32 (a +ℤ b) }
    ensures holds { Holds type.Dint result }
{
    wrapped_to_dint(sum(a, b))
}

/// The difference of two DINTs.
pub fn dint_difference(a: i64, b: i64) -> i64
    ensures value { result ≡ int_wrap w32 (a -ℤ b) }
    ensures holds { Holds type.Dint result }
{
    wrapped_to_dint(difference(a, b))
}

/// The product of two DINTs.
pub fn dint_product(a: i64, b: i64) -> i64
    ensures value { result ≡ int_wrap w32 (a *ℤ b) }
    ensures holds { Holds type.Dint result }
{
    wrapped_to_dint(product(a, b))
}

/// The quotient of two DINTs.
pub fn dint_quotient(a: i64, b: i64) -> i64
    ensures value { result ≡ int_wrap w32 (spec.quotient a b) }
    ensures holds { Holds type.Dint result }
{
    wrapped_to_dint(quotient(i128::from(a), i128::from(b)))
}

/// What the quotient of two DINTs leaves.
pub fn dint_remainder(a: i64, b: i64) -> i64
    ensures value { result ≡ int_wrap w32 (spec.remainder a b) }
    ensures holds { Holds type.Dint result }
{
    wrapped_to_dint(remainder(i128::from(a), i128::from(b)))
}

/// The product of two LREALs.
pub fn lreal_product(a: i64, b: i64) -> i64
    ensures value { result ≡ spec.nearest type.Lreal (spec.quotient (a *ℤ b) (pos (10 ^ 9))) }
    ensures holds { Holds type.Lreal result }
{
    nearest(
        Elementary::Lreal,
        quotient(product(a, b), i128::from(BILLION)),
    )
}

/// The quotient of two LREALs.
pub fn lreal_quotient(a: i64, b: i64) -> i64
    ensures value { result ≡ spec.nearest type.Lreal (spec.quotient (a *ℤ pos (10 ^ 9)) b) }
    ensures holds { Holds type.Lreal result }
{
    nearest(
        Elementary::Lreal,
        quotient(product(a, BILLION), i128::from(b)),
    )
}

/// The quotient of a TIME by a whole number.
pub fn time_quotient(a: i64, b: i64) -> i64
    ensures value { result ≡ spec.nearest type.Time (spec.quotient a b) }
    ensures holds { Holds type.Time result }
{
    nearest(Elementary::Time, quotient(i128::from(a), i128::from(b)))
}

/// The sum of two values of a type that ends at its bounds.
pub fn bounded_sum(of: Elementary, a: i64, b: i64) -> i64
    ensures value { result ≡ spec.nearest of (a +ℤ b) }
    ensures holds { Holds of result }
{
    nearest(of, sum(a, b))
}

/// The difference of two values of a type that ends at its bounds.
pub fn bounded_difference(of: Elementary, a: i64, b: i64) -> i64
    ensures value { result ≡ spec.nearest of (a -ℤ b) }
    ensures holds { Holds of result }
{
    nearest(of, difference(a, b))
}

/// The product of two numbers, ended at the bounds of a type.
pub fn bounded_product(of: Elementary, a: i64, b: i64) -> i64
    ensures value { result ≡ spec.nearest of (a *ℤ b) }
    ensures holds { Holds of result }
{
    nearest(of, product(a, b))
}

/// The minus of a DINT.
pub fn dint_negative(value: i64) -> i64
    ensures value { result ≡ int_wrap w32 (neg_ℤ value) }
    ensures holds { Holds type.Dint result }
{
    wrapped_to_dint(-i128::from(value))
}

/// The minus of a value of a type that ends at its bounds.
pub fn bounded_negative(of: Elementary, value: i64) -> i64
    ensures value { result ≡ spec.nearest of (neg_ℤ value) }
    ensures holds { Holds of result }
{
    nearest(of, -i128::from(value))
}

/// The size of a value, ended at the bounds of a type.
pub fn bounded_size(of: Elementary, value: i64) -> i64
    ensures value { result ≡ spec.nearest of (pos (unsigned_abs value)) }
    ensures holds { Holds of result }
{
    nearest(of, i128::from(value.unsigned_abs()))
}
