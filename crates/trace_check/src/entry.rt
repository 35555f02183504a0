// An entry of a trace, replayed: its event is made, and its records are compared.

ghost use Rattle.std.specs.Prelude.{◌≡◌, ◌+◌, ◌<◌, ◌≤◌, ◌^◌, [], ◌∷◌, Some, length, slice_get, take};
ghost use Rattle.motion_history.specs.Looks.{told};
ghost use Rattle.trace_text.specs.Trace.{entry_records};
ghost use Rattle.trace_text.specs.declared.found.FoundEntry.{FoundEntry};
ghost use Rattle.trace_text.specs.TraceState.{entry_of};
ghost use Rattle.trace_check.specs.FoundRecords.{found_entry_records};
ghost use Rattle.trace_check.specs.Stops.{EntryReplays, StopsAt};
ghost use Rattle.trace_text.specs.TraceKept.{IsEntryRead, IsTraceKept};

use crate::difference::{Stop, differing};
use crate::making::{has_room, make};
use crate::record::Record;
use crate::rows::wrong_record;
use crate::texts::{entry_record, found_record};
use motion_history::EntryLook;
use motion_kernel::SegmentedKernel;
use std::alloc::Global;
use trace_text::Trace;

// The stop where there is no room for an entry: a record of empty fields is expected.
fn no_room(alloc: Global, trace: &Trace, entry: u64, found: &EntryLook<'_>, place: u64) -> Stop
    requires { IsTraceKept trace.now }
    ensures { (e : FoundEntry) → slice_get trace.now.found entry ≡ Some e →
        told found.now ≡ entry_of e →
        StopsAt place ([] ∷ []) (found_entry_records trace.now.version trace.now.config e) result }
{
    let Ok(expected) = Record::new(alloc, &[b""; 12]) else {
        return Stop::OutOfMemory;
    };
    let Ok(found) = found_record(alloc, trace, entry, found, 0) else {
        return Stop::OutOfMemory;
    };
    differing(place, expected, found)
}

// The stop at the record of an entry that isn't found so.
fn wrong_at(
    alloc: Global,
    trace: &Trace,
    entry: u64,
    expected: &EntryLook<'_>,
    found: &EntryLook<'_>,
    at: usize,
    place: u64,
) -> Stop
    requires kept { IsTraceKept trace.now }
    requires few { at < 256 }
    requires fits { place + 300 < 2 ^ 64 }
    requires before { (e : FoundEntry) → slice_get trace.now.found entry ≡ Some e →
        told found.now ≡ entry_of e →
        take at (entry_records trace.now.version trace.now.config (told expected.now)) ≡
        take at (found_entry_records trace.now.version trace.now.config e) }
    ensures { (e : FoundEntry) → slice_get trace.now.found entry ≡ Some e →
        told found.now ≡ entry_of e →
        StopsAt place (entry_records trace.now.version trace.now.config (told expected.now))
        (found_entry_records trace.now.version trace.now.config e) result }
{
    let Ok(expected) = entry_record(alloc, trace.version(), trace.config(), expected, at) else {
        return Stop::OutOfMemory;
    };
    let Ok(found) = found_record(alloc, trace, entry, found, at) else {
        return Stop::OutOfMemory;
    };
    differing(place + at as u64, expected, found)
}

// How many records an entry has.
fn records_in(trace: &Trace, entry: &EntryLook<'_>) -> u64
    ensures count { (e : FoundEntry) → IsEntryRead trace.now.version trace.now.config e →
        told entry.now ≡ entry_of e →
        result ≡ length (found_entry_records trace.now.version trace.now.config e) }
    ensures few { result ≤ 300 }
{
    match entry {
        EntryLook::Cycle { .. } => {
            1 + trace.config().axes().len() as u64 + trace.config().groups().len() as u64
        }
        EntryLook::Call { .. } => 1,
        EntryLook::End { .. } => 1,
    }
}

/// Replays the entry at a place counted from 0, whose first record has this number in the text:
/// makes its event, and compares its records. Answers how many there are.
pub fn replay_entry(
    alloc: Global,
    trace: &Trace,
    entry: u64,
    place: u64,
    kernel: &mut SegmentedKernel,
) -> Result<u64, Stop>
    requires kept { IsTraceKept trace.now }
    requires config { kernel.old.config ≡ trace.now.config }
    requires made { length kernel.old.history ≡ entry }
    requires fits { place + 300 < 2 ^ 64 }
    ensures { (e : FoundEntry) → slice_get trace.now.found entry ≡ Some e →
        EntryReplays trace.now e place kernel.old.start kernel.old kernel.new result }
{
    let Some(found) = trace.look(entry) else {
        return Err(Stop::OutOfMemory);
    };
    if !has_room(kernel, &found) {
        return Err(no_room(alloc, trace, entry, &found, place));
    }
    make(kernel, &found);
    let made = kernel.history();
    let Some(expected) = made.look(entry) else {
        return Err(Stop::OutOfMemory);
    };
    match wrong_record(trace, entry, &expected, &found) {
        Some(at) => Err(wrong_at(alloc, trace, entry, &expected, &found, at, place)),
        None => Ok(records_in(trace, &found)),
    }
}
