// The numbers that words write.

ghost use Rattle.std.specs.Prelude.{◌≡◌, ◌≤◌, ◌^◌, IsTrue, MatchOption, Some};
ghost use Rattle.std.specs.Char.{is_ascii_digit};
ghost use Rattle.std.specs.Int.NonZero.{non_zero_u8_get};
ghost use Rattle.std.specs.List.{list_all};
ghost use Rattle.std.specs.Option.{option_map};
ghost use Rattle.std.specs.Str.Parse.{digits_value};
ghost use Rattle.command_words.specs.Numbers as spec;
ghost use Rattle.fixed_units.specs.Numbers as fixed;

use std::num::NonZeroU8;

/// The seed that a word is: a number of one to ten digits, at most 4,294,967,295.
#[tactic(auto, unfolding(crate::specs::Numbers::seed_in))]
pub fn seed_in(word: &str) -> Option<u32>
    ensures { result ≡ spec.seed_in word.now }
{
    if word.len() <= 10 && is_digits(word.as_bytes()) {
        value_of(word)
    } else {
        None
    }
}

/// The count of events that a word is: a number of one to seven digits.
#[tactic(auto, unfolding(crate::specs::Numbers::cut_in))]
pub fn cut_in(word: &str) -> Option<u32>
    ensures { result ≡ spec.cut_in word.now }
{
    if word.len() <= 7 && is_digits(word.as_bytes()) {
        short_value_of(word)
    } else {
        None
    }
}

/// The number of workers that a word is: 1 to 16, without a leading zero.
#[tactic(auto, unfolding(crate::specs::Numbers::workers_in))]
pub fn workers_in(word: &str) -> Option<NonZeroU8>
    ensures { option_map non_zero_u8_get result ≡ spec.workers_in word.now }
{
    if word.len() <= 2 && is_digits(word.as_bytes()) && !leads_with_zero(word.as_bytes()) {
        workers_by(word)
    } else {
        None
    }
}

// The number that digits write, where there may be this many workers.
fn workers_by(digits: &str) -> Option<NonZeroU8>
    requires { IsTrue (fixed.is_digits digits.now) }
    ensures { option_map non_zero_u8_get result ≡ spec.workers_of (digits_value 10 digits.now) }
{
    match value_of(digits) {
        Some(value) if value <= 16 => NonZeroU8::new(value as u8),
        _ => None,
    }
}

// The number that at most seven digits write: it has 32 bits.
fn short_value_of(digits: &str) -> Option<u32>
    requires { IsTrue (spec.is_number 7 digits.now) }
    ensures { result ≡ Some (digits_value 10 digits.now) }
{
    value_of(digits)
}

// The number that digits write, where it has 32 bits.
fn value_of(digits: &str) -> Option<u32>
    requires { IsTrue (fixed.is_digits digits.now) }
    ensures { MatchOption result (2 ^ 32 ≤ digits_value 10 digits.now)
        (λ n. n ≡ digits_value 10 digits.now) }
{
    match digits.parse() {
        Ok(value) => Some(value),
        Err(_) => None,
    }
}

// Whether the first byte is the digit 0.
fn leads_with_zero(bytes: &[u8]) -> bool
    ensures { result ≡ spec.leads_with_zero bytes.now }
{
    match bytes {
        [] => false,
        [first, ..] => *first == b'0',
    }
}

// Whether the bytes are one decimal digit or more.
fn is_digits(bytes: &[u8]) -> bool
    ensures { result ≡ fixed.is_digits bytes.now }
{
    !bytes.is_empty() && has_digits_alone(bytes)
}

// Whether each byte is a decimal digit.
fn has_digits_alone(bytes: &[u8]) -> bool
    ensures { result ≡ list_all is_ascii_digit bytes.now }
{
    bytes.iter().all(|b| b.is_ascii_digit())
}
