// Numbers as operands.

ghost use Rattle.std.specs.Prelude.{◌≡◌, ◌≤◌, ◌^◌, ◌-◌, unsigned_abs};
ghost use Rattle.iec_operands.specs.Literals as spec;

use crate::operand::Operand;
use iec_tree::{Elementary, Number};

/// A number as an operand, and whether it is in its range.
#[derive(Clone, Copy)]
pub struct Literal {
    pub operand: Operand,
    pub fits: bool,
}

// A size with its sign.
fn signed(negative: bool, size: i64) -> i64
    requires { unsigned_abs size ≤ 2 ^ 63 - 1 }
    ensures { result ≡ spec.signed negative size }
{
    if negative { -size } else { size }
}

// A number of a type in its range.
fn in_range(of: Elementary, value: i64) -> Literal
    ensures { result ≡ spec.in_range of value }
{
    Literal {
        operand: Operand::Value { of, value },
        fits: true,
    }
}

// What stands for a number of a type beyond its range.
fn beyond(of: Elementary) -> Literal
    ensures { result ≡ spec.beyond of }
{
    Literal {
        operand: Operand::Value { of, value: 0 },
        fits: false,
    }
}

// A whole number.
#[tactic(auto, unfolding(crate::specs::Literals::whole))]
fn whole(value: i64) -> Literal
    ensures { result ≡ spec.whole value }
{
    if -32_768 <= value && value <= 32_767 {
        in_range(Elementary::Int, value)
    } else if -2_147_483_648 <= value && value <= 2_147_483_647 {
        in_range(Elementary::Dint, value)
    } else {
        beyond(Elementary::Dint)
    }
}

// A whole number of this size.
fn whole_sized(negative: bool, size: Option<u32>) -> Literal
    ensures { result ≡ spec.whole_sized negative size }
{
    match size {
        Some(size) => whole(signed(negative, i64::from(size))),
        None => beyond(Elementary::Dint),
    }
}

// A decimal number or a time of this size, up to the greatest.
#[tactic(auto, unfolding(crate::specs::Literals::up_to))]
fn up_to(most: u64, of: Elementary, negative: bool, size: u64) -> Literal
    requires { most ≤ 2 ^ 63 - 1 }
    ensures { result ≡ spec.up_to most of negative size }
{
    if size <= most {
        in_range(of, signed(negative, size as i64))
    } else {
        beyond(of)
    }
}

// A decimal number of this size.
fn decimal_sized(negative: bool, size: Option<u64>) -> Literal
    ensures { result ≡ spec.decimal_sized negative size }
{
    match size {
        Some(size) => up_to(9_000_000_000_000_000_000, Elementary::Lreal, negative, size),
        None => beyond(Elementary::Lreal),
    }
}

// A time of this size.
fn time_sized(negative: bool, size: Option<u64>) -> Literal
    ensures { result ≡ spec.time_sized negative size }
{
    match size {
        Some(size) => up_to(1_000_000_000_000_000, Elementary::Time, negative, size),
        None => beyond(Elementary::Time),
    }
}

/// A number with its sign as an operand.
#[tactic(auto, unfolding(crate::specs::Literals::literal_of))]
pub fn literal_of(negative: bool, number: Number) -> Literal
    ensures { result ≡ spec.literal_of negative number }
{
    match number {
        Number::Whole(size) => whole_sized(negative, size),
        Number::Decimal(size) => decimal_sized(negative, size),
        Number::Time(size) => time_sized(negative, size),
    }
}
