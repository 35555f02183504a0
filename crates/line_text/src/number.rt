// Numbers and points in words.

ghost use Rattle.std.specs.Prelude.{◌≡◌, ◌≤◌, if◌then◌else◌, IfSome, Some, None, length, unsigned_abs};
ghost use Rattle.std.specs.Char.{is_ascii_digit};
ghost use Rattle.std.specs.List.{list_all};
ghost use Rattle.std.specs.Str.Parse.{digits_value};
ghost use Rattle.line_text.specs.Numbers as spec;

use crate::word::place_of;
use motion_numbers::MOST_NUMBER;

/// The most digits of a number.
const MOST_DIGITS: usize = 19;

/// The number that a word is: an optional `-` and 1 to 19 digits, at most 10^18 in size.
// Out of line it leaves those short that read many numbers.
#[inline(never)]
#[tactic(auto, unfolding(crate::specs::Numbers::number_of))]
pub fn number_of(word: &[u8]) -> Option<i64>
    ensures value { result ≡ spec.number_of word.now }
    ensures small { IfSome result (λ z. unsigned_abs z ≤ MOST_NUMBER) }
{
    match word {
        [b'-', digits @ ..] => Some(-(size_of(digits)? as i64)),
        digits => Some(size_of(digits)? as i64),
    }
}

// The size of a number.
#[tactic(auto, unfolding(crate::specs::Numbers::size_of))]
fn size_of(digits: &[u8]) -> Option<u64>
    ensures value { result ≡ spec.size_of digits.now }
    ensures small { IfSome result (λ n. n ≤ MOST_NUMBER) }
{
    if digits.is_empty() || digits.len() > MOST_DIGITS {
        return None;
    }
    let size = value_of(digits)?;
    if size <= MOST_NUMBER {
        Some(size)
    } else {
        None
    }
}

// The number that at most 19 bytes write, where each is a decimal digit.
fn value_of(bytes: &[u8]) -> Option<u64>
    requires { length bytes.now ≤ MOST_DIGITS }
    ensures { result ≡ (if list_all is_ascii_digit bytes.now
        then Some (digits_value 10 bytes.now) else None) }
{
    let mut number = 0u64;
    for byte in bytes {
        if !byte.is_ascii_digit() {
            return None;
        }
        number = number * 10 + u64::from(*byte - b'0');
    }
    Some(number)
}

/// The point that a word is: two numbers joined by a colon.
#[tactic(auto, unfolding(crate::specs::Numbers::point_of))]
pub fn point_of(word: &[u8]) -> Option<(i64, i64)>
    ensures { result ≡ spec.point_of word.now }
{
    let colon = place_of(b':', word)?;
    let x = number_of(&word[..colon])?;
    let y = number_of(&word[colon + 1..])?;
    Some((x, y))
}
