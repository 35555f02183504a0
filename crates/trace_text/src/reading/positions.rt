// The positions of a call, read from its record.

ghost use Rattle.std.specs.Prelude.{◌≡◌, ◌≤◌};
ghost use Rattle.line_text.specs.Reading.{Gives, each_of};
ghost use Rattle.line_text.specs.Texts.{texts};
ghost use Rattle.machine_words.specs.Positions as positions;
ghost use Rattle.trace_text.specs.reading.Inputs as spec;
ghost use Rattle.trace_text.specs.reading.Items as items;
ghost use Rattle.trace_text.specs.reading.Rules as rules;

use crate::reading::item::{number, parts_of};
use crate::reading::rule::{NO_VALUE, is_empty};
use line_text::{LineFault, broken_unless};
use machine_words::{axes_of, positions_from};
use motion_history::{BlockDef, Builder, MOST_MEMBERS};
use plc_types::{Input, takes};
use std::alloc::Global;

/// The positions of a call, where its kind takes them.
#[tactic(auto, unfolding(crate::specs::reading::Inputs::positions_of))]
pub fn positions_of(
    alloc: Global,
    machine: &Builder,
    block: &BlockDef,
    text: &[u8],
) -> Result<[i64; MOST_MEMBERS], LineFault>
    ensures { Gives (λ p. p) (spec.positions_of machine.now block.now text.now) result }
{
    if takes(block.kind, Input::Position) {
        joined_positions(alloc, axes_of(machine, block), text)
    } else {
        no_positions(text)
    }
}

// Positions that are not taken.
fn no_positions(text: &[u8]) -> Result<[i64; MOST_MEMBERS], LineFault>
    ensures { Gives (λ p. p) (rules.unused text.now positions.no_positions) result }
{
    broken_unless(is_empty(text), NO_VALUE)?;
    Ok([0; MOST_MEMBERS])
}

// This many positions, joined by semicolons.
#[tactic(auto, unfolding(crate::specs::reading::Inputs::joined_positions))]
fn joined_positions(
    alloc: Global,
    axes: usize,
    text: &[u8],
) -> Result<[i64; MOST_MEMBERS], LineFault>
    requires { axes ≤ MOST_MEMBERS }
    ensures { Gives (λ p. p) (spec.joined_positions axes text.now) result }
{
    let Ok(parts) = parts_of(alloc, text) else {
        return Err(LineFault::OutOfMemory);
    };
    let places = numbers(alloc, parts.as_slice())?;
    broken_unless(places.len() == axes, NO_VALUE)?;
    Ok(positions_from(places.as_slice()))
}

// The numbers that fields are.
fn numbers(alloc: Global, fields: &[&[u8]]) -> Result<Vec<i64>, LineFault>
    ensures { Gives (λ v. v.items) (each_of items.number (texts fields.now)) result }
{
    let mut numbers = Vec::new(alloc);
    for field in fields {
        let number = number(field)?;
        let Ok(()) = numbers.push(number) else {
            return Err(LineFault::OutOfMemory);
        };
    }
    Ok(numbers)
}
