// Digits, and the numbers that they write.

ghost use Rattle.std.specs.Prelude.{◌≡◌, ◌≤◌, ◌^◌, length, min};
ghost use Rattle.iec_tokens.specs.Digits as spec;

use crate::byte::is_digit;

/// What stands for a number that is too great.
const TOO_GREAT: u64 = 10_000_000_000_000_000;

/// How a whole number is written.
#[derive(Clone, Copy)]
pub enum Radix {
    Decimal,
    Hexadecimal,
}

// Whether a byte is a digit.
fn is_digit_of(radix: Radix, b: u8) -> bool
    ensures { result ≡ spec.is_digit_of radix b }
{
    match radix {
        Radix::Decimal => is_digit(b),
        Radix::Hexadecimal => {
            is_digit(b) || (b'A' <= b && b <= b'F') || (b'a' <= b && b <= b'f')
        }
    }
}

// Whether a text begins with a digit.
pub fn begins(radix: Radix, text: &[u8]) -> bool
    ensures { result ≡ spec.begins radix text.now }
{
    match text {
        [] => false,
        [b, ..] => is_digit_of(radix, *b),
    }
}

// How many bytes at the front are digits, or a `_` before a digit.
fn run_length(radix: Radix, text: &[u8]) -> usize
    ensures length { result ≡ spec.run_length radix text.now }
    ensures within { result ≤ length text.now }
{
    let mut count = 0;
    for byte in text {
        let goes_on = is_digit_of(radix, *byte)
            || (*byte == b'_' && begins(radix, &text[count + 1..]));
        if !goes_on {
            return count;
        }
        count += 1;
    }
    count
}

// The digits at the front.
#[tactic(auto, unfolding(crate::specs::Digits::digits_at))]
pub fn digits_at(radix: Radix, text: &[u8]) -> &[u8]
    ensures digits { result.now ≡ spec.digits_at radix text.now }
    ensures within { length result.now ≤ length text.now }
{
    if begins(radix, text) {
        &text[..run_length(radix, text)]
    } else {
        &[]
    }
}

// The value of a digit.
fn digit_value(b: u8) -> u64
    ensures value { result ≡ spec.value_of_digit b }
    ensures small { result ≤ 255 }
{
    if b <= b'9' {
        u64::from(b.saturating_sub(b'0'))
    } else if b <= b'F' {
        u64::from(b.saturating_sub(b'A' - 10))
    } else {
        u64::from(b.saturating_sub(b'a' - 10))
    }
}

// The base of a radix.
fn base_of(radix: Radix) -> u64
    ensures base { result ≡ spec.base_of radix }
    ensures small { result ≤ 16 }
{
    match radix {
        Radix::Decimal => 10,
        Radix::Hexadecimal => 16,
    }
}

// A number with one more digit, or what stands for one that is too great.
fn with_digit(radix: Radix, number: u64, digit: u8) -> u64
    requires { number ≤ 10 ^ 16 }
    ensures number { result ≡ min (spec.with_digit (spec.base_of radix) number digit) (10 ^ 16) }
    ensures small { result ≤ 10 ^ 16 }
{
    if digit == b'_' {
        number
    } else {
        (number * base_of(radix) + digit_value(digit)).min(TOO_GREAT)
    }
}

// The number that digits write, or what stands for one that is too great.
#[tactic(auto, unfolding(crate::specs::Digits::size_of))]
pub fn size_of(radix: Radix, digits: &[u8]) -> u64
    ensures size { result ≡ spec.size_of radix digits.now }
    ensures small { result ≤ 10 ^ 16 }
{
    let mut number = 0u64;
    for digit in digits {
        number = with_digit(radix, number, *digit);
    }
    number
}

// How many digits there are.
pub fn count_of(digits: &[u8]) -> usize
    ensures count { result ≡ spec.count_of digits.now }
    ensures within { result ≤ length digits.now }
{
    let mut count = 0;
    for digit in digits {
        if *digit != b'_' {
            count += 1;
        }
    }
    count
}
