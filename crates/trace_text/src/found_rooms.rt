// What the entries that were found hold, each kind of it in an array of its own.

ghost use Rattle.std.specs.Prelude.{◌≡◌, ◌≤◌, ◌+◌, IfOk, length};
ghost use Rattle.motion_history.specs.Looks.{told};
ghost use Rattle.trace_text.specs.FoundLists as spec;
ghost use Rattle.trace_text.specs.TraceState as entries;
ghost use Rattle.trace_text.specs.declared.found.FoundEntry.TheVariants as found;

use crate::found::{FoundCycle, FoundEntry};
use crate::same::are_same_inputs;
use motion_history::{EntryLook, OutOfMemory};
use plc_types::{AxisRow, GroupRow, INPUTS_OFF, Inputs, Outputs};
use std::alloc::Global;

/// The arrays, and the inputs of the calls that keep none.
#[derive(Drop)]
pub(crate) struct Rooms {
    calls: Vec<FoundCall>,
    rows: Vec<AxisRow>,
    group_rows: Vec<GroupRow>,
    places: Vec<i64>,
    off: Inputs,
}

/// A call with inputs.
#[derive(Clone, Copy)]
pub(crate) struct FoundCall {
    instance: u16,
    inputs: Inputs,
    reply: Outputs,
}

/// An entry as it is kept: a call by its place among the calls, or, where its inputs are those of
/// a call with Execute false, without them; a cycle without its rows.
#[derive(Clone, Copy)]
pub(crate) enum Kept {
    Call { place: u32 },
    Off { instance: u16, reply: Outputs },
    Cycle(CyclePlace),
    End { task: u8 },
}

/// Where the rows of a cycle stand, and the places that its drives reported, and how many there
/// are.
#[derive(Clone, Copy)]
pub(crate) struct CyclePlace {
    number: u32,
    rows_from: u32,
    groups_from: u32,
    places_from: u32,
    rows: u8,
    groups: u8,
    places: u8,
}

// The place after this many items.
fn place_behind(length: usize) -> Result<u32, OutOfMemory>
    ensures { IfOk result (λ place. place ≡ length) }
{
    let Ok(place) = u32::try_from(length) else {
        return Err(OutOfMemory);
    };
    Ok(place)
}

// How many items a cycle has of a kind.
fn count_of(length: usize) -> Result<u8, OutOfMemory>
    ensures { IfOk result (λ count. count ≡ length) }
{
    let Ok(count) = u8::try_from(length) else {
        return Err(OutOfMemory);
    };
    Ok(count)
}

// Puts items after those of an array; says from where on they stand, and how many.
fn put<T: Copy>(array: &mut Vec<T>, items: &[T]) -> Result<(u32, u8), OutOfMemory>
    ensures leads { spec.Leads array.old.items array.new.items }
    ensures part { IfOk result (λ p. spec.IsPart array.new.items p.0 p.1 items.now) }
{
    let (from, count) = (place_behind(array.len())?, count_of(items.len())?);
    let Ok(()) = array.extend_from_slice(items) else {
        return Err(OutOfMemory);
    };
    Ok((from, count))
}

// This many items of an array from a place on.
fn part<T>(array: &[T], from: u32, count: u8) -> &[T]
    requires { from + count ≤ length array.now }
    ensures { result.now ≡ spec.part_of array.now from count }
{
    let from = from as usize;
    &array[from..from + count as usize]
}

impl Rooms {
    /// Rooms that hold nothing.
    pub(crate) fn new(alloc: Global) -> Rooms {
        Rooms {
            calls: Vec::new(alloc),
            rows: Vec::new(alloc),
            group_rows: Vec::new(alloc),
            places: Vec::new(alloc),
            off: INPUTS_OFF,
        }
    }

    /// Puts what an entry holds after that of the others.
    pub(crate) fn put_entry(&mut self, entry: FoundEntry) -> Result<Kept, OutOfMemory>
        ensures grows { spec.Grows self.old self.new }
        ensures kept { IfOk result (spec.IsKeptSo self.new entry) }
    {
        match entry {
            FoundEntry::Call {
                instance,
                inputs,
                reply,
            } => self.put_call(instance, &inputs, reply),
            FoundEntry::Cycle(cycle) => self.put_cycle(&cycle),
            FoundEntry::End { task } => Ok(Kept::End { task }),
        }
    }

    // Puts a call.
    fn put_call(
        &mut self,
        instance: u16,
        inputs: &Inputs,
        reply: Outputs,
    ) -> Result<Kept, OutOfMemory>
        ensures grows { spec.Grows self.old self.new }
        ensures kept { IfOk result
            (spec.IsKeptSo self.new (found.Call instance inputs.now reply)) }
    {
        if are_same_inputs(inputs, &self.off) {
            return Ok(Kept::Off { instance, reply });
        }
        let place = place_behind(self.calls.len())?;
        let call = FoundCall {
            instance,
            inputs: *inputs,
            reply,
        };
        let Ok(()) = self.calls.push(call) else {
            return Err(OutOfMemory);
        };
        Ok(Kept::Call { place })
    }

    // Puts the rows of a cycle, and the places in it.
    fn put_cycle(&mut self, cycle: &FoundCycle) -> Result<Kept, OutOfMemory>
        ensures grows { spec.Grows self.old self.new }
        ensures kept { IfOk result (spec.IsKeptSo self.new (found.Cycle cycle.now)) }
    {
        let (rows_from, rows) = put(&mut self.rows, cycle.rows())?;
        let (groups_from, groups) = put(&mut self.group_rows, cycle.group_rows())?;
        let (places_from, places) = put(&mut self.places, cycle.places())?;
        Ok(Kept::Cycle(CyclePlace {
            number: cycle.number(),
            rows_from,
            groups_from,
            places_from,
            rows,
            groups,
            places,
        }))
    }

    // The cycle whose rows stand here, as it is looked at.
    fn cycle(&self, cycle: &CyclePlace) -> EntryLook<'_>
        requires { spec.IsCycleThere self.now cycle.now }
        ensures { told result ≡ entries.entry_of (found.Cycle (spec.cycle_in self.now cycle.now)) }
    {
        EntryLook::Cycle {
            number: cycle.number,
            axes: part(self.rows.as_slice(), cycle.rows_from, cycle.rows),
            groups: part(self.group_rows.as_slice(), cycle.groups_from, cycle.groups),
        }
    }

    /// The entry that is kept so, as it is looked at.
    pub(crate) fn look<'a>(&'a self, kept: &'a Kept) -> EntryLook<'a>
        requires { spec.IsThere self.now kept.now }
        ensures { told result ≡ entries.entry_of (spec.entry_in self.now kept.now) }
    {
        match kept {
            Kept::Call { place } => {
                let call = &self.calls[*place as usize];
                EntryLook::Call {
                    instance: call.instance,
                    inputs: &call.inputs,
                    reply: &call.reply,
                }
            }
            Kept::Off { instance, reply } => EntryLook::Call {
                instance: *instance,
                inputs: &self.off,
                reply,
            },
            Kept::Cycle(cycle) => self.cycle(cycle),
            Kept::End { task } => EntryLook::End { task: *task },
        }
    }

    /// The places in the entry that is kept so.
    pub(crate) fn places(&self, kept: &Kept) -> &[i64]
        requires { spec.IsThere self.now kept.now }
        ensures { result.now ≡ entries.places_of (spec.entry_in self.now kept.now) }
    {
        match kept {
            Kept::Cycle(cycle) => part(self.places.as_slice(), cycle.places_from, cycle.places),
            _ => &[],
        }
    }
}
