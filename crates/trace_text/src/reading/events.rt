// The calls, cycles and ends of a trace, read from its records.

ghost use Rattle.std.specs.Prelude.{◌≡◌, [], Ok};
ghost use Rattle.line_text.specs.Reading.{Gives};
ghost use Rattle.line_text.specs.Texts.{texts};
ghost use Rattle.trace_text.specs.reading.Events as spec;
ghost use Rattle.trace_text.specs.reading.InputFields.{fields_of};

use crate::found::{CycleRoom, FoundCycle, FoundEntry};
use crate::reading::inputs::{InputFields, inputs_of};
use crate::reading::rule::{NO_VALUE, are_empty, value};
use line_text::{LineFault, broken_unless};
use machine_words::{KnownBlocks, task_at};
use motion_history::{Builder, TraceVersion};
use plc_types::Outputs;
use std::alloc::Global;
use trace_columns::{outputs_of, unsigned_of, word_of};

/// The call of a record.
#[tactic(auto, unfolding(crate::specs::reading::Events::call_meaning))]
pub fn call_of(
    alloc: Global,
    known: &mut KnownBlocks,
    version: TraceVersion,
    machine: &Builder,
    fields: &[&[u8]],
) -> Result<FoundEntry, LineFault>
    ensures { Gives (λ e. e) (spec.call_meaning version machine.now (texts fields.now)) result }
{
    let [
        name,
        execute,
        positions,
        velocity,
        acceleration,
        deceleration,
        jerk,
        mode,
        follow,
        outputs,
        error_id,
    ] = fields
    else {
        return Err(LineFault::Rule(NO_VALUE));
    };
    let inputs = InputFields {
        execute,
        positions,
        rates: &[velocity, acceleration, deceleration, jerk],
        last: &[mode, follow],
    };
    call_by(
        alloc,
        known,
        version,
        machine,
        name,
        &inputs,
        &[outputs, error_id],
    )
}

// The call of a block of this name.
#[tactic(auto, unfolding(crate::specs::reading::Events::call_by))]
fn call_by(
    alloc: Global,
    known: &mut KnownBlocks,
    version: TraceVersion,
    machine: &Builder,
    name: &[u8],
    inputs: &InputFields<'_>,
    reply: &[&[u8]],
) -> Result<FoundEntry, LineFault>
    ensures { Gives (λ e. e)
        (spec.call_by version machine.now name.now (fields_of inputs.now) (texts reply.now))
        result }
{
    let instance = value(known.block_at(machine, name))?;
    let Some(block) = machine.blocks().get(instance as usize) else {
        return Err(LineFault::Rule(NO_VALUE));
    };
    let inputs = inputs_of(alloc, version, machine, block, inputs)?;
    let reply = reply_of(alloc, reply)?;
    Ok(FoundEntry::Call {
        instance,
        inputs,
        reply,
    })
}

// The outputs of a call and its ErrorID.
#[tactic(auto, unfolding(crate::specs::reading::Events::reply_of))]
fn reply_of(alloc: Global, fields: &[&[u8]]) -> Result<Outputs, LineFault>
    ensures { Gives (λ o. o) (spec.reply_of (texts fields.now)) result }
{
    let [outputs, error_id] = fields else {
        return Err(LineFault::Rule(NO_VALUE));
    };
    let error_id = value(word_of(error_id))?;
    let Ok(outputs) = outputs_of(alloc, outputs, error_id) else {
        return Err(LineFault::OutOfMemory);
    };
    value(outputs)
}

/// The number of the cycle of a record.
#[tactic(auto, unfolding(crate::specs::reading::Events::cycle_meaning))]
pub fn cycle_of(fields: &[&[u8]]) -> Result<u32, LineFault>
    ensures { Gives (λ n. n) (spec.cycle_meaning (texts fields.now)) result }
{
    let [number, unused @ ..] = fields else {
        return Err(LineFault::Rule(NO_VALUE));
    };
    let number = value(unsigned_of(1, u32::MAX, number))?;
    broken_unless(are_empty(unused), NO_VALUE)?;
    Ok(number)
}

/// The cycle of this number before its first row, in room for all its rows.
pub fn begun(
    alloc: Global,
    version: TraceVersion,
    machine: &Builder,
    number: u32,
) -> Result<FoundCycle, LineFault>
    ensures { Gives (λ c. c)
        (Ok (record { number = number; axes = []; groups = []; places = [] })) result }
{
    let room = room_of(version, machine);
    match FoundCycle::with_room(alloc, number, room) {
        Ok(cycle) => Ok(cycle),
        Err(_) => Err(LineFault::OutOfMemory),
    }
}

// The room of a cycle: for a row of each axis and each group, and for a place of each axis in the
// version that has places.
fn room_of(version: TraceVersion, machine: &Builder) -> CycleRoom {
    let axes = machine.axes().len();
    let groups = machine.groups().len();
    let places = match version {
        TraceVersion::One => 0,
        TraceVersion::Two | TraceVersion::Three => axes,
    };
    CycleRoom {
        axes,
        groups,
        places,
    }
}

/// The end of a task of a record.
#[tactic(auto, unfolding(crate::specs::reading::Events::end_meaning))]
pub fn end_of(machine: &Builder, fields: &[&[u8]]) -> Result<FoundEntry, LineFault>
    ensures { Gives (λ e. e) (spec.end_meaning machine.now (texts fields.now)) result }
{
    let [name, unused @ ..] = fields else {
        return Err(LineFault::Rule(NO_VALUE));
    };
    let task = value(task_at(machine, name))?;
    broken_unless(are_empty(unused), NO_VALUE)?;
    Ok(FoundEntry::End { task })
}
