// The limits, groups, cam tables and blocks of a bench.

ghost use Rattle.line_text.specs.Reading.{Takes};
ghost use Rattle.line_text.specs.Texts.{texts};
ghost use Rattle.bench_text.specs.Items as spec;

use crate::name::task_named;
use crate::point::points;
use line_text::{LineFault, in_range};
use machine_words::{
    ItemRules, OUT_OF_RANGE, TOO_MANY, WRONG_COUNT, WRONG_NAME, axes_named, free_name, kind_of,
    number, object_named, refusal_of,
};
use motion_history::{Builder, MOST_CYCLES, MOST_ENTRIES, TraceVersion};
use std::alloc::Global;

/// The rules that the numbers of an item break.
pub const RULES: ItemRules = ItemRules {
    wrong: OUT_OF_RANGE,
    too_many: TOO_MANY,
};

/// Gives the history the room of a line of limits.
#[tactic(auto, unfolding(crate::specs::Items::limit_meaning))]
pub fn set_room(machine: &mut Builder, words: &[&[u8]]) -> Result<(), LineFault>
    ensures { Takes (spec.limit_meaning machine.old (texts words.now)) machine.new result }
{
    let [cycles, entries] = words else {
        return Err(LineFault::Rule(WRONG_COUNT));
    };
    let cycles = number(cycles)?;
    let entries = number(entries)?;
    let cycles = in_range(1, MOST_CYCLES, OUT_OF_RANGE, cycles)?;
    let entries = in_range(1, MOST_ENTRIES, OUT_OF_RANGE, entries)?;
    match machine.room(cycles, entries) {
        Ok(()) => Ok(()),
        Err(fault) => Err(refusal_of(fault)),
    }
}

/// Adds the group of a line.
#[tactic(auto, unfolding(crate::specs::Items::group_meaning))]
pub fn add_group(alloc: Global, machine: &mut Builder, words: &[&[u8]]) -> Result<(), LineFault>
    ensures { Takes (spec.group_meaning machine.old (texts words.now)) machine.new result }
{
    let [name, names @ ..] = words else {
        return Err(LineFault::Rule(WRONG_COUNT));
    };
    free_name(machine, name)?;
    let axes = axes_named(alloc, machine, WRONG_NAME, names)?;
    match machine.group(name, axes.as_slice()) {
        Ok(_) => Ok(()),
        Err(fault) => Err(refusal_of(fault)),
    }
}

/// Adds the cam table of a line.
#[tactic(auto, unfolding(crate::specs::Items::table_meaning))]
pub fn add_table(alloc: Global, machine: &mut Builder, words: &[&[u8]]) -> Result<(), LineFault>
    ensures { Takes (spec.table_meaning machine.old (texts words.now)) machine.new result }
{
    let points = points(alloc, words)?;
    machine_words::add_table(alloc, RULES, machine, points.as_slice())
}

/// Adds the block of a line.
#[tactic(auto, unfolding(crate::specs::Items::block_meaning))]
pub fn add_block(
    machine: &mut Builder,
    version: TraceVersion,
    words: &[&[u8]],
) -> Result<(), LineFault>
    ensures { Takes (spec.block_meaning version machine.old (texts words.now)) machine.new result }
{
    let [name, task, kind, object] = words else {
        return Err(LineFault::Rule(WRONG_COUNT));
    };
    free_name(machine, name)?;
    let task = task_named(machine, task)?;
    let kind = kind_of(version, kind)?;
    let object = object_named(machine, kind, object)?;
    match machine.block(name, task, kind, object) {
        Ok(_) => Ok(()),
        Err(fault) => Err(refusal_of(fault)),
    }
}
