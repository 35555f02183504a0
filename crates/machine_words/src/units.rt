// Places and rates in the units of a text.

ghost use Rattle.std.specs.Prelude.{◌≡◌, ◌≤◌, ◌^◌, IfOk, unsigned_abs};
ghost use Rattle.line_text.specs.Reading.{Gives, each_of};
ghost use Rattle.line_text.specs.Texts.{texts};
ghost use Rattle.machine_words.specs.Units as spec;
ghost use Rattle.machine_words.specs.Units.{IsCycle, IsUnits};

use crate::integer::number;
use crate::rule::NO_VALUE;
use fixed_units::{per_cycle, per_cycle2, per_cycle3, read_units};
use line_text::LineFault;
use motion_history::TraceVersion;
use motion_numbers::MOST_NUMBER;
use std::alloc::Global;
use std::str;

/// The microseconds of the shortest cycle.
pub const SHORTEST_CYCLE: u32 = 100;

/// The microseconds of the longest cycle.
pub const LONGEST_CYCLE: u32 = 100_000;

/// The units in which a text gives places and rates.
#[derive(Clone, Copy)]
pub enum Units {
    /// Internal units, per cycle.
    Internal,
    /// User units of 10^9 internal ones, per second, where a cycle has this many microseconds, for a
    /// machine of this version.
    User {
        cycle_us: u32,
        version: TraceVersion,
    },
}

/// The internal units of a decimal number of user units, or the rule is broken.
#[tactic(auto, unfolding(crate::specs::Units::decimal_units))]
pub fn decimal_units(text: &str, rule: u8) -> Result<i64, LineFault>
    ensures value { Gives (λ z. z) (spec.decimal_units rule text.now) result }
    ensures small { IfOk result (λ z. unsigned_abs z ≤ MOST_NUMBER) }
{
    match read_units(text) {
        Ok(units) => Ok(units),
        Err(_) => Err(LineFault::Rule(rule)),
    }
}

// The internal units of the decimal number that a word is.
#[tactic(auto, unfolding(crate::specs::Units::quantity))]
fn quantity(word: &[u8]) -> Result<i64, LineFault>
    ensures value { Gives (λ z. z) (spec.quantity word.now) result }
    ensures small { IfOk result (λ z. unsigned_abs z ≤ MOST_NUMBER) }
{
    match str::from_utf8(word) {
        Ok(text) => decimal_units(text, NO_VALUE),
        Err(_) => Err(LineFault::Rule(NO_VALUE)),
    }
}

/// The place, or another quantity without a time, that a word is.
#[tactic(auto, unfolding(crate::specs::Units::place_in))]
pub fn place_of(units: Units, word: &[u8]) -> Result<i64, LineFault>
    ensures value { Gives (λ z. z) (spec.place_in units word.now) result }
    ensures small { IfOk result (λ z. unsigned_abs z ≤ MOST_NUMBER) }
{
    match units {
        Units::Internal => number(word),
        Units::User { .. } => quantity(word),
    }
}

/// The places that words are.
pub fn places_of(alloc: Global, units: Units, words: &[&[u8]]) -> Result<Vec<i64>, LineFault>
    ensures { Gives (λ v. v.items) (each_of (spec.place_in units) (texts words.now)) result }
{
    let mut places = Vec::new(alloc);
    for word in words {
        let place = place_of(units, word)?;
        let Ok(()) = places.push(place) else {
            return Err(LineFault::OutOfMemory);
        };
    }
    Ok(places)
}

/// The velocity that a word is, in internal units per cycle.
#[tactic(auto, unfolding(crate::specs::Units::velocity_in))]
pub fn velocity_of(units: Units, word: &[u8]) -> Result<i64, LineFault>
    requires { IsUnits units }
    ensures { Gives (λ z. z) (spec.velocity_in units word.now) result }
{
    match units {
        Units::Internal => number(word),
        Units::User { cycle_us, .. } => {
            let speed = quantity(word)?;
            Ok(per_cycle(speed, cycle_us))
        }
    }
}

/// The acceleration that a word is, in internal units per cycle squared.
#[tactic(auto, unfolding(crate::specs::Units::acceleration_in))]
pub fn acceleration_of(units: Units, word: &[u8]) -> Result<i64, LineFault>
    requires { IsUnits units }
    ensures { Gives (λ z. z) (spec.acceleration_in units word.now) result }
{
    match units {
        Units::Internal => number(word),
        Units::User { cycle_us, .. } => {
            let change = quantity(word)?;
            Ok(per_cycle2(change, cycle_us))
        }
    }
}

/// The jerk that a word is, in internal units per cycle cubed. In version 3 one that would be
/// rounded to 0 is 1; before, it is taken as it is read.
#[tactic(auto, unfolding(crate::specs::Units::jerk_in))]
pub fn jerk_of(units: Units, word: &[u8]) -> Result<i64, LineFault>
    requires { IsUnits units }
    ensures { Gives (λ z. z) (spec.jerk_in units word.now) result }
{
    match units {
        Units::Internal => number(word),
        Units::User { cycle_us, version } => match version {
            TraceVersion::Three => {
                let jerk = quantity(word)?;
                Ok(jerk_per_cycle(jerk, cycle_us))
            }
            TraceVersion::One | TraceVersion::Two => quantity(word),
        },
    }
}

// The jerk in a cycle of this many microseconds.
fn jerk_per_cycle(jerk: i64, cycle_us: u32) -> i64
    requires { (unsigned_abs jerk ≤ 10 ^ 18) × IsCycle cycle_us }
    ensures { result ≡ spec.jerk_of jerk cycle_us }
{
    let per_cycle = per_cycle3(jerk, cycle_us);
    if jerk != 0 && per_cycle == 0 {
        1
    } else {
        per_cycle
    }
}
