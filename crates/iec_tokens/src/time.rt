// Times.

ghost use Rattle.std.specs.Prelude.{◌≡◌, ◌≤◌, ◌*◌, ◌+◌, ◌^◌, IfSome, IsTrue, length};
ghost use Rattle.iec_tokens.specs.Times as spec;

use crate::digits::{Radix, begins};
use crate::number::{Written, billionths_of, written_at};
use crate::token::Number;

/// The units of times.
#[derive(Clone, Copy)]
pub enum Unit {
    Day,
    Hour,
    Minute,
    Second,
    Millisecond,
    Microsecond,
}

/// The units, from the longest to the shortest.
pub const FALLING: [Unit; 6] = [
    Unit::Day,
    Unit::Hour,
    Unit::Minute,
    Unit::Second,
    Unit::Millisecond,
    Unit::Microsecond,
];

/// The units, one of two letters before the one that its first letter is.
pub const UNITS: [Unit; 6] = [
    Unit::Millisecond,
    Unit::Microsecond,
    Unit::Day,
    Unit::Hour,
    Unit::Minute,
    Unit::Second,
];

/// A number and its unit.
#[derive(Clone, Copy)]
struct Part {
    unit: Unit,
    /// In billionths of a microsecond.
    amount: u128,
    /// Whether its number has no point.
    whole: bool,
    length: usize,
}

/// A time at the front of a text, in billionths of a microsecond, and how many bytes it takes.
#[derive(Clone, Copy)]
struct Duration {
    amount: u128,
    length: usize,
}

// How a unit is written.
#[tactic(auto, unfolding(crate::specs::Times::unit_text))]
fn unit_text(unit: Unit) -> &'static str
    ensures text { result.now ≡ spec.unit_text unit }
    ensures short { length result.now ≤ 2 }
{
    match unit {
        Unit::Day => "d",
        Unit::Hour => "h",
        Unit::Minute => "m",
        Unit::Second => "s",
        Unit::Millisecond => "ms",
        Unit::Microsecond => "us",
    }
}

// The microseconds of a unit.
#[tactic(auto, unfolding(crate::specs::Times::microseconds_of))]
fn microseconds_of(unit: Unit) -> u128
    ensures microseconds { result ≡ spec.microseconds_of unit }
    ensures few { result ≤ 86400000000 }
{
    match unit {
        Unit::Day => 86_400_000_000,
        Unit::Hour => 3_600_000_000,
        Unit::Minute => 60_000_000,
        Unit::Second => 1_000_000,
        Unit::Millisecond => 1_000,
        Unit::Microsecond => 1,
    }
}

// Whether a text begins so, in any case of letters.
#[tactic(auto, unfolding(crate::specs::Times::begins_with))]
fn begins_with(text: &[u8], word: &str) -> bool
    ensures begins { result ≡ spec.begins_with text.now word.now }
    ensures within { IsTrue result → length word.now ≤ length text.now }
{
    let word = word.as_bytes();
    word.len() <= text.len() && text[..word.len()].eq_ignore_ascii_case(word)
}

// The unit at the front.
#[tactic(auto, unfolding(crate::specs::Times::unit_at))]
fn unit_at(text: &[u8]) -> Option<Unit>
    ensures unit { result ≡ spec.unit_at text.now }
    ensures within { IfSome result (λ u. length (spec.unit_text u) ≤ length text.now) }
{
    for unit in UNITS {
        if begins_with(text, unit_text(unit)) {
            return Some(unit);
        }
    }
    None
}

// The number and unit at the front.
#[tactic(auto, unfolding(crate::specs::Times::part_at))]
fn part_at(text: &[u8]) -> Option<Part>
    ensures part { result ≡ spec.part_at text.now }
    ensures small { IfSome result (λ p. p.amount ≤ 2 * 10 ^ 36) }
    ensures within { IfSome result (λ p. p.length ≤ length text.now) }
{
    let written = written_at(Radix::Decimal, text);
    if written.length == 0 || 9 < written.places {
        return None;
    }
    let unit = unit_at(&text[written.length..])?;
    Some(part_of(written, unit))
}

// A number in a unit.
fn part_of(written: Written, unit: Unit) -> Part
    requires whole { written.whole ≤ 10 ^ 16 }
    requires fraction { written.fraction ≤ 10 ^ 16 }
    requires places { written.places ≤ 9 }
    requires length { written.length ≤ 2 ^ 63 }
    ensures part { result ≡ spec.part_of written unit }
    ensures small { result.amount ≤ 2 * 10 ^ 36 }
{
    Part {
        unit,
        amount: billionths_of(written) * microseconds_of(unit),
        whole: written.places == 0,
        length: written.length + unit_text(unit).len(),
    }
}

// The time at the front, in these units.
fn duration_in(units: &[Unit], text: &[u8]) -> Option<Duration>
    requires { length units.now ≤ 6 }
    ensures duration { result ≡ spec.duration_in units.now text.now }
    ensures small { IfSome result (λ d. d.amount ≤ length units.now * (2 * 10 ^ 36)) }
    ensures within { IfSome result (λ d. d.length ≤ length text.now) }
{
    let [unit, units @ ..] = units else {
        return None;
    };
    let part = part_at(text)?;
    if microseconds_of(part.unit) != microseconds_of(*unit) {
        return duration_in(units, text);
    }
    let behind = &text[part.length..];
    if !begins(Radix::Decimal, behind) {
        return Some(Duration {
            amount: part.amount,
            length: part.length,
        });
    }
    if !part.whole {
        return None;
    }
    let more = duration_in(units, behind)?;
    Some(Duration {
        amount: part.amount + more.amount,
        length: part.length + more.length,
    })
}

// A time in microseconds, where they are whole and at most 10^15.
#[tactic(auto, unfolding(crate::specs::Times::time_of))]
fn time_of(amount: u128) -> Option<u64>
    ensures { result ≡ spec.time_of amount }
{
    if amount % 1_000_000_000 == 0 && amount / 1_000_000_000 <= 1_000_000_000_000_000 {
        Some((amount / 1_000_000_000) as u64)
    } else {
        None
    }
}

// How many bytes `T#` or `TIME#` takes at the front.
#[tactic(auto, unfolding(crate::specs::Times::prefix_length))]
pub fn prefix_length(text: &[u8]) -> usize
    ensures length { result ≡ spec.prefix_length text.now }
    ensures within { result ≤ length text.now }
{
    if begins_with(text, "T#") {
        2
    } else if begins_with(text, "TIME#") {
        5
    } else {
        0
    }
}

/// The time at the front of a text, after `T#` or `TIME#`, and how many bytes it takes.
#[tactic(auto, unfolding(crate::specs::Times::time_at))]
pub fn time_at(text: &[u8]) -> Option<(Number, usize)>
    ensures time { result ≡ spec.time_at text.now }
    ensures within { IfSome result (λ t. t.1 ≤ length text.now) }
{
    let duration = duration_in(&FALLING, text)?;
    Some((Number::Time(time_of(duration.amount)), duration.length))
}
