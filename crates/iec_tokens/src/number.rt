// Numbers at the front of a text.

ghost use Rattle.std.specs.Prelude.{◌≡◌, ◌≤◌, ◌*◌, ◌+◌, ◌^◌, drop, length};
ghost use Rattle.iec_tokens.specs.Digits as digits;
ghost use Rattle.iec_tokens.specs.Numbers as spec;

use crate::digits::{Radix, count_of, digits_at, size_of};
use crate::token::{Number, Token};

/// The most places of a decimal number.
const MOST_PLACES: usize = 9;

/// A number as it stands at the front of a text: digits, and after a point the digits of its
/// fraction, of which there are none where no point with a digit after it follows.
#[derive(Clone, Copy)]
pub struct Written {
    /// The number before the point.
    pub whole: u64,
    /// The number that the digits after the point write.
    pub fraction: u64,
    /// How many digits there are after the point.
    pub places: usize,
    /// How many bytes it takes; none where the text begins with no digit.
    pub length: usize,
}

// The digits after a point at the front.
#[tactic(auto, unfolding(crate::specs::Numbers::fraction_at))]
fn fraction_at(text: &[u8]) -> &[u8]
    ensures digits { result.now ≡ spec.fraction_at text.now }
    ensures within { length result.now ≤ length text.now }
    ensures behind { 1 ≤ length result.now → length result.now + 1 ≤ length text.now }
{
    match text {
        [b'.', behind @ ..] => digits_at(Radix::Decimal, behind),
        _ => &[],
    }
}

// The number at the front, whose digits before the point are of this radix.
#[tactic(auto, unfolding(crate::specs::Numbers::written_at))]
pub fn written_at(radix: Radix, text: &[u8]) -> Written
    ensures written { result ≡ spec.written_at radix text.now }
    ensures within { result.length ≤ length text.now }
    ensures whole { result.whole ≤ 10 ^ 16 }
    ensures fraction { result.fraction ≤ 10 ^ 16 }
{
    let whole = digits_at(radix, text);
    let fraction = fraction_at(&text[whole.len()..]);
    Written {
        whole: size_of(radix, whole),
        fraction: size_of(Radix::Decimal, fraction),
        places: count_of(fraction),
        length: length_of(whole.len(), fraction.len()),
    }
}

// How many bytes a number takes, whose digits take these before and after its point.
fn length_of(whole: usize, fraction: usize) -> usize
    requires { whole + fraction + 1 ≤ 2 ^ 63 }
    ensures { result ≡ spec.length_of whole fraction }
{
    if fraction == 0 {
        whole
    } else {
        whole + 1 + fraction
    }
}

// A number in billionths.
#[tactic(auto, unfolding(crate::specs::Numbers::billionths_of))]
pub fn billionths_of(written: Written) -> u128
    requires whole { written.whole ≤ 10 ^ 16 }
    requires fraction { written.fraction ≤ 10 ^ 16 }
    requires places { written.places ≤ 9 }
    ensures billionths { result ≡ spec.billionths_of written }
    ensures small { result ≤ 2 * 10 ^ 25 }
{
    let missing = (MOST_PLACES - written.places) as u32;
    u128::from(written.whole) * 1_000_000_000 + u128::from(written.fraction) * 10u128.pow(missing)
}

// The token that a number is.
#[tactic(auto, unfolding(crate::specs::Numbers::number_token))]
pub fn number_token(written: Written) -> Token
    requires whole { written.whole ≤ 10 ^ 16 }
    requires fraction { written.fraction ≤ 10 ^ 16 }
    ensures { result ≡ spec.number_token written }
{
    if written.places == 0 {
        Token::Number(Number::Whole(whole_of(2_147_483_648, written.whole)))
    } else if written.places <= MOST_PLACES {
        Token::Number(Number::Decimal(decimal_of(billionths_of(written))))
    } else {
        Token::Wrong
    }
}

// The token that a number is whose digits stand after `16#`.
#[tactic(auto, unfolding(crate::specs::Numbers::hexadecimal_token))]
pub fn hexadecimal_token(written: Written) -> Token
    ensures { result ≡ spec.hexadecimal_token written }
{
    if written.length == 0 || written.places != 0 {
        Token::Wrong
    } else {
        Token::Number(Number::Whole(whole_of(2_147_483_647, written.whole)))
    }
}

// A whole number, up to the greatest that may stand there.
fn whole_of(most: u32, number: u64) -> Option<u32>
    ensures { result ≡ spec.up_to most number }
{
    if number <= u64::from(most) {
        Some(number as u32)
    } else {
        None
    }
}

// A decimal number in billionths, up to 9,000,000,000.
fn decimal_of(billionths: u128) -> Option<u64>
    ensures { result ≡ spec.up_to (9 * 10 ^ 18) billionths }
{
    if billionths <= 9_000_000_000_000_000_000 {
        Some(billionths as u64)
    } else {
        None
    }
}
