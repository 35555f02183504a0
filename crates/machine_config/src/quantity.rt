// Quantities in internal units, and points of them.

ghost use Rattle.std.specs.Prelude.{◌≡◌, ◌≤◌, ◌^◌, IfOk, unsigned_abs};
ghost use Rattle.line_text.specs.Reading.{Gives, each_of};
ghost use Rattle.line_text.specs.Texts.{texts};
ghost use Rattle.toml.specs.Data.{Data};
ghost use Rattle.toml.specs.View.{table_view, view};
ghost use Rattle.std.specs.Prelude.{Some};
ghost use Rattle.machine_config.specs.Quantities as spec;

use crate::key::{Key, value_at};
use crate::rule::NO_QUANTITY;
use line_text::LineFault;
use machine_words::decimal_units;
use motion_numbers::MOST_NUMBER;
use std::alloc::Global;
use toml::{Table, Value};

/// The internal units of a user unit.
const UNIT: u64 = 1_000_000_000;

// The internal units of a whole number of user units.
#[tactic(auto, unfolding(crate::specs::Quantities::whole_units))]
fn whole_units(number: i64) -> Result<i64, LineFault>
    ensures value { Gives (λ z. z) (spec.whole_units number) result }
    ensures small { IfOk result (λ z. unsigned_abs z ≤ 10 ^ 18) }
{
    if number.unsigned_abs() <= MOST_NUMBER / UNIT {
        Ok(number * UNIT as i64)
    } else {
        Err(LineFault::Rule(NO_QUANTITY))
    }
}

// The quantity that a value is.
fn quantity_of(value: &Value) -> Result<i64, LineFault>
    ensures value { Gives (λ z. z) (spec.quantity_in (Some (view value.now))) result }
    ensures small { IfOk result (λ z. unsigned_abs z ≤ 10 ^ 18) }
{
    match value {
        Value::String(text) => decimal_units(text.as_str(), NO_QUANTITY),
        Value::Integer(number) => whole_units(*number),
        _ => Err(LineFault::Rule(NO_QUANTITY)),
    }
}

/// The quantity under a key.
#[tactic(auto, unfolding(crate::specs::Quantities::quantity_at))]
pub fn quantity_at(table: &Table, key: Key) -> Result<i64, LineFault>
    ensures value { Gives (λ z. z) (spec.quantity_at key (table_view table.now)) result }
    ensures small { IfOk result (λ z. unsigned_abs z ≤ 10 ^ 18) }
{
    match value_at(table, key) {
        Some(value) => quantity_of(value),
        None => Err(LineFault::Rule(NO_QUANTITY)),
    }
}

/// The quantity under a key, or another where it is left out.
#[tactic(auto, unfolding(crate::specs::Quantities::quantity_or))]
pub fn quantity_or(other: i64, table: &Table, key: Key) -> Result<i64, LineFault>
    requires { unsigned_abs other ≤ 10 ^ 18 }
    ensures value { Gives (λ z. z) (spec.quantity_or other key (table_view table.now)) result }
    ensures small { IfOk result (λ z. unsigned_abs z ≤ 10 ^ 18) }
{
    match value_at(table, key) {
        Some(value) => quantity_of(value),
        None => Ok(other),
    }
}

// The point of these coordinates.
#[tactic(auto, unfolding(crate::specs::Quantities::point_at))]
fn point_at(x: &str, y: &str) -> Result<(i64, i64), LineFault>
    ensures { Gives (λ p. p) (spec.point_at x.now y.now) result }
{
    let x = decimal_units(x, NO_QUANTITY)?;
    let y = decimal_units(y, NO_QUANTITY)?;
    Ok((x, y))
}

// The point that a text is.
#[tactic(auto, unfolding(crate::specs::Quantities::point_of))]
fn point_of(text: &str) -> Result<(i64, i64), LineFault>
    ensures { Gives (λ p. p) (spec.point_of text.now) result }
{
    let Some((x, y)) = text.split_once(':') else {
        return Err(LineFault::Rule(NO_QUANTITY));
    };
    point_at(x, y)
}

/// The points that texts are.
pub fn points_of(alloc: Global, words: &[&str]) -> Result<Vec<(i64, i64)>, LineFault>
    ensures { Gives (λ v. v.items) (each_of spec.point_of (texts words.now)) result }
{
    let mut points = Vec::new(alloc);
    for word in words {
        let point = point_of(word)?;
        let Ok(()) = points.push(point) else {
            return Err(LineFault::OutOfMemory);
        };
    }
    Ok(points)
}
