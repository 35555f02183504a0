// The numbers of a trace, as a writer spells them.

ghost use Rattle.std.specs.Prelude.{◌≡◌, ◌≤◌, ◌<◌, ◌-◌, ◌^◌, ◌≤ℤ◌, pos, neg_ℤ, unsigned_abs, IfSome, Some, true, length, decimal, take, slice_index_or};
ghost use Rattle.std.specs.Fmt.{signed_decimal};
ghost use Rattle.std.specs.List.{position};
ghost use Rattle.std.specs.Option.{option_map};
ghost use Rattle.std.specs.Str.{bytes_eq};
ghost use Rattle.std.specs.Str.Parse.{AllDigits, digits_value};
ghost use Rattle.line_text.specs.Numbers.{is_colon};
ghost use Rattle.trace_columns.specs.Columns as spec;

use crate::eight::eight_digits;
use itoa::Buffer;
use motion_numbers::MOST_NUMBER;
use std::str;

/// The greatest size of a number that is an input or a limit.
const MOST: i64 = MOST_NUMBER as i64;

/// The number of 64 bits that a field is, in decimal without needless zeros, and without a plus.
pub fn wide_number_of(text: &[u8]) -> Option<i64>
    ensures { result ≡ spec.wide_number_of text.now }
{
    match short_number_of(text) {
        Some(number) => Some(number),
        None => parsed_number_of(text),
    }
}

// The number that a field of at most 18 digits is, after a minus or not, as it is spelled.
#[inline]
fn short_number_of(text: &[u8]) -> Option<i64>
    ensures { IfSome result (λ z. Some z ≡ spec.wide_number_of text.now) }
{
    let (first, size) = text.split_first()?;
    if *first == b'-' {
        negative(digits_of(size)?)
    } else {
        Some(digits_of(text)? as i64)
    }
}

// The negative number of a size, where that is not 0.
fn negative(size: u64) -> Option<i64>
    requires { size < 10 ^ 18 }
    ensures some { IfSome result (λ z. z ≡ neg_ℤ (pos size)) }
    ensures least { IfSome result (λ _. 0 < size) }
{
    if size == 0 {
        return None;
    }
    Some(-(size as i64))
}

// The number that a field of at most 18 digits is, without a sign and needless zeros.
fn digits_of(text: &[u8]) -> Option<u64>
    ensures spelled { IfSome result (λ n. decimal n ≡ text.now) }
    ensures small { IfSome result (λ n. n < 10 ^ 18) }
{
    if !may_be_digits(text) {
        return None;
    }
    let (from, front) = first_digits(text)?;
    let mut number = front;
    for i in from..text.len() {
        let digit = digit_of(text[i]);
        if digit > 9 {
            return None;
        }
        number = number * 10 + u64::from(digit);
    }
    Some(number)
}

// How many digits were read at once, the first eight or none, and the number that they are. There
// is nothing where the first eight bytes are no digits.
#[inline]
fn first_digits(text: &[u8]) -> Option<(usize, u64)>
    ensures within { IfSome result (λ r. r.0 ≤ length text.now) }
    ensures digits { IfSome result (λ r. AllDigits 10 (take r.0 text.now)) }
    ensures value { IfSome result (λ r. r.1 ≡ digits_value 10 (take r.0 text.now)) }
{
    match text {
        [a, b, c, d, e, f, g, h, ..] => {
            let front = eight_digits(*a, *b, *c, *d, *e, *f, *g, *h)?;
            Some((8, front))
        }
        _ => Some((0, 0)),
    }
}

// The digit that a byte is, or more than 9 where it is none.
fn digit_of(byte: u8) -> u8
    ensures digit { 48 ≤ byte → byte ≤ 57 → result ≡ byte - 48 }
    ensures none { result ≤ 9 → (48 ≤ byte) × (byte ≤ 57) }
{
    byte.wrapping_sub(b'0')
}

// Whether a field has 1 to 18 bytes, and more than one only where the first is not 0.
fn may_be_digits(text: &[u8]) -> bool
    ensures some { result ≡ true → 1 ≤ length text.now }
    ensures few { result ≡ true → length text.now ≤ 18 }
    ensures first { result ≡ true → slice_index_or text.now 0 0 ≡ 48 → length text.now ≡ 1 }
{
    match text {
        [] => false,
        [_] => true,
        [first, ..] => text.len() <= 18 && *first != b'0',
    }
}

// The number of 64 bits that a field is, of any spelling.
#[cold]
#[inline(never)]
fn parsed_number_of(text: &[u8]) -> Option<i64>
    ensures { result ≡ spec.wide_number_of text.now }
{
    let Ok(word) = str::from_utf8(text) else {
        return None;
    };
    let Ok(number) = word.parse::<i64>() else {
        return None;
    };
    if is_spelled(number, text) {
        Some(number)
    } else {
        None
    }
}

// Whether a text is what is written for a number.
fn is_spelled(number: i64, text: &[u8]) -> bool
    ensures { result ≡ bytes_eq (signed_decimal number) text.now }
{
    let mut digits = Buffer::new();
    digits.format(number).as_bytes() == text
}

// The number that a field is, between two, both included.
#[tactic(auto, unfolding(crate::specs::Columns::number_of))]
fn number_between(least: i64, most: i64, text: &[u8]) -> Option<i64>
    ensures value { result ≡ spec.number_of least most text.now }
    ensures least { IfSome result (λ z. least ≤ℤ z) }
    ensures most { IfSome result (λ z. z ≤ℤ most) }
{
    let number = wide_number_of(text)?;
    if least <= number && number <= most {
        Some(number)
    } else {
        None
    }
}

/// The number that a field is, at most 10^18 in size.
pub fn number_of(text: &[u8]) -> Option<i64>
    ensures value { result ≡ spec.size_limited_of text.now }
    ensures small { IfSome result (λ z. unsigned_abs z ≤ MOST_NUMBER) }
{
    number_between(-MOST, MOST, text)
}

/// The number that a field is, between two that are not negative, both included.
#[tactic(auto, unfolding(crate::specs::Columns::unsigned_of))]
pub fn unsigned_of(least: u32, most: u32, text: &[u8]) -> Option<u32>
    ensures value { result ≡ spec.unsigned_of least most text.now }
    ensures most { IfSome result (λ n. n ≤ most) }
{
    let number = number_between(i64::from(least), i64::from(most), text)?;
    Some(number as u32)
}

/// The number of 32 bits that a field is.
pub fn int_of(text: &[u8]) -> Option<i32>
    ensures { result ≡ spec.number_of (neg_ℤ (pos (2 ^ 31))) (pos (2 ^ 31 - 1)) text.now }
{
    let number = number_between(i64::from(i32::MIN), i64::from(i32::MAX), text)?;
    Some(number as i32)
}

/// The number of 8 bits that a field is.
pub fn small_int_of(text: &[u8]) -> Option<i8>
    ensures { result ≡ spec.number_of (neg_ℤ (pos 128)) (pos 127) text.now }
{
    let number = number_between(i64::from(i8::MIN), i64::from(i8::MAX), text)?;
    Some(number as i8)
}

/// The number of 16 bits that a field is.
pub fn word_of(text: &[u8]) -> Option<u16>
    ensures { result ≡ spec.unsigned_of 0 65535 text.now }
{
    let number = unsigned_of(0, 65_535, text)?;
    Some(number as u16)
}

// Where the first colon stands.
fn colon_in(text: &[u8]) -> Option<usize>
    ensures place { result ≡ position is_colon text.now }
    ensures within { IfSome result (λ place. place < length text.now) }
{
    text.iter().position(|b| *b == b':')
}

/// The parts of a field before its first colon and after it.
#[tactic(auto, unfolding(crate::specs::Columns::halves_of))]
pub fn halves_of(text: &[u8]) -> Option<(&[u8], &[u8])>
    ensures { option_map (λ h. (h.0.now, h.1.now)) result ≡ spec.halves_of text.now }
{
    let colon = colon_in(text)?;
    Some((&text[..colon], &text[colon + 1..]))
}

/// The point that a field is: two numbers joined by a colon.
#[tactic(auto, unfolding(crate::specs::Columns::point_of))]
pub fn point_of(text: &[u8]) -> Option<(i64, i64)>
    ensures { result ≡ spec.point_of text.now }
{
    let (x, y) = halves_of(text)?;
    let x = number_of(x)?;
    let y = number_of(y)?;
    Some((x, y))
}
