// Entries that are compared with those found, value by value.

ghost use Rattle.std.specs.Prelude.{◌≡◌, ◌↔◌, ◌<◌, ◌≤◌, ℕ, IfNone, IfSome, IsTrue, Some, true, length, slice_get, take};
ghost use Rattle.motion_history.specs.Entries.{call, cycle_count, end_of};
ghost use Rattle.motion_history.specs.Looks.{told};
ghost use Rattle.trace_text.specs.RowRanges.{found_place, found_row};
ghost use Rattle.trace_text.specs.Trace.{entry_records};
ghost use Rattle.trace_text.specs.TraceState.{entry_of, place_at};
ghost use Rattle.trace_text.specs.Writable.{found_entry};
ghost use Rattle.trace_text.specs.declared.found.FoundEntry.{FoundEntry};
ghost use Rattle.trace_check.specs.FoundRecords.{found_entry_records};
ghost use Rattle.trace_check.specs.Rows.{IsFoundAs, IsFoundAt};
ghost use Rattle.trace_text.specs.TraceKept.{IsTraceKept};

use motion_history::{EntryLook, TraceVersion};
use plc_types::{AxisDef, AxisRow, GroupRow, Inputs, Outputs};
use trace_text::{Trace, are_same_inputs, reported_place};

// Whether the place that a drive reports in a row is the one found; version 1 has none.
fn is_reported(version: TraceVersion, axis: &AxisDef, row: &AxisRow, place: Option<i64>) -> bool
    ensures { IsTrue result ↔ (found_place version axis.now row.now ≡ place) }
{
    match (version, place) {
        (TraceVersion::One, None) => true,
        (TraceVersion::Two | TraceVersion::Three, Some(place)) => reported_place(axis, row)
            == i128::from(place),
        _ => false,
    }
}

// A row without its offset.
fn without_offset(row: &AxisRow) -> AxisRow
    ensures { result ≡ found_row row.now }
{
    AxisRow { offset: 0, ..*row }
}

// Whether a row is another.
fn is_same_row(row: &AxisRow, other: &AxisRow) -> bool
    ensures { IsTrue result ↔ (row.now ≡ other.now) }
{
    *row == *other
}

// Whether a reply is another.
fn is_same_reply(reply: &Outputs, other: &Outputs) -> bool
    ensures { IsTrue result ↔ (reply.now ≡ other.now) }
{
    *reply == *other
}

// Whether a row is found so, without its offset, and with this place, except in version 1.
fn is_found_as(
    version: TraceVersion,
    axis: &AxisDef,
    row: &AxisRow,
    found: &AxisRow,
    place: Option<i64>,
) -> bool
    ensures { IsTrue result ↔ IsFoundAs version axis.now row.now found.now place }
{
    is_same_row(&without_offset(row), found) && is_reported(version, axis, row, place)
}

// The first row that isn't found so.
fn wrong_row(trace: &Trace, entry: u64, expected: &[AxisRow], found: &[AxisRow]) -> Option<usize>
    requires each { length found.now ≡ length trace.now.config.axes }
    requires few { length found.now ≤ 16 }
    ensures same { IfNone result (length expected.now ≡ length found.now) }
    ensures all { IfNone result ((n : ℕ) → IsFoundAt trace.now.version trace.now.config.axes
        expected.now found.now (place_at trace.now entry) n) }
    ensures before { IfSome result (λ k. (n : ℕ) → n < k →
        IsFoundAt trace.now.version trace.now.config.axes expected.now found.now
        (place_at trace.now entry) n) }
    ensures within { IfSome result (λ k. k ≤ length found.now) }
    ensures many { IfSome result (λ k. 0 < k → length expected.now ≡ length found.now) }
    ensures wrong { IfSome result (λ k. length expected.now ≡ length found.now →
        IsFoundAt trace.now.version trace.now.config.axes expected.now found.now
        (place_at trace.now entry) k → ⊥) }
{
    if expected.len() != found.len() {
        return Some(0);
    }
    let axes = trace.config().axes();
    for i in 0..found.len() {
        let place = trace.actual_of(entry, i as u8);
        if !is_found_as(trace.version(), &axes[i], &expected[i], &found[i], place) {
            return Some(i);
        }
    }
    None
}

// The first row of a group that isn't found so.
fn wrong_group_row(expected: &[GroupRow], found: &[GroupRow]) -> Option<usize>
    ensures same { IfNone result (expected.now ≡ found.now) }
    ensures before { IfSome result (λ k. take k expected.now ≡ take k found.now) }
    ensures within { IfSome result (λ k. k ≤ length found.now) }
    ensures wrong { IfSome result (λ k. length expected.now ≡ length found.now →
        slice_get expected.now k ≡ slice_get found.now k → ⊥) }
{
    if expected.len() != found.len() {
        return Some(0);
    }
    for i in 0..found.len() {
        if expected[i] != found[i] {
            return Some(i);
        }
    }
    None
}

// The first record of a cycle, counted from 0, that isn't found so; of another entry the first.
fn wrong_in_cycle(
    trace: &Trace,
    entry: u64,
    expected: &EntryLook<'_>,
    found: &EntryLook<'_>,
) -> Option<usize>
    requires kept { IsTraceKept trace.now }
    ensures same { IfNone result ((e : FoundEntry) → slice_get trace.now.found entry ≡ Some e →
        told found.now ≡ entry_of e →
        e ≡ found_entry trace.now.version trace.now.config (told expected.now)) }
    ensures before { IfSome result (λ k. (e : FoundEntry) → slice_get trace.now.found entry ≡
        Some e → told found.now ≡ entry_of e →
        take k (entry_records trace.now.version trace.now.config (told expected.now)) ≡
        take k (found_entry_records trace.now.version trace.now.config e)) }
    ensures few { IfSome result (λ k. k < 256) }
{
    let EntryLook::Cycle {
        number,
        axes,
        groups,
    } = expected
    else {
        return Some(0);
    };
    let EntryLook::Cycle {
        number: found_number,
        axes: rows,
        groups: grows,
    } = found
    else {
        return Some(0);
    };
    let many = rows.len();
    if many != trace.config().axes().len() || grows.len() != trace.config().groups().len() {
        return Some(0);
    }
    if number != found_number {
        return Some(0);
    }
    match wrong_row(trace, entry, axes, rows) {
        Some(row) => return Some(1 + row),
        None => {}
    }
    match wrong_group_row(groups, grows) {
        Some(grow) => Some(1 + many + grow),
        None => None,
    }
}

// Whether an entry is this call with this reply.
fn is_call(found: &EntryLook<'_>, instance: u16, inputs: &Inputs, reply: &Outputs) -> bool
    ensures { IsTrue result ↔ (told found.now ≡ call instance inputs.now reply.now) }
{
    match found {
        EntryLook::Call {
            instance: found,
            inputs: given,
            reply: replied,
        } => {
            *found == instance && are_same_inputs(given, inputs) && is_same_reply(replied, reply)
        }
        _ => false,
    }
}

// Whether an entry is the end of this task.
fn is_end(found: &EntryLook<'_>, task: u8) -> bool
    ensures { IsTrue result ↔ (told found.now ≡ end_of task) }
{
    match found {
        EntryLook::End { task: found } => *found == task,
        _ => false,
    }
}

// Whether a call or the end of a task is found so.
fn is_event_found(expected: &EntryLook<'_>, found: &EntryLook<'_>) -> bool
    ensures same { IsTrue result → told found.now ≡ told expected.now }
    ensures event { IsTrue result → cycle_count (told expected.now) ≡ 0 }
{
    match expected {
        EntryLook::Call {
            instance,
            inputs,
            reply,
        } => is_call(found, *instance, inputs, reply),
        EntryLook::Cycle { .. } => false,
        EntryLook::End { task } => is_end(found, *task),
    }
}

/// The first record of an entry, counted from 0, that isn't found so.
pub fn wrong_record(
    trace: &Trace,
    entry: u64,
    expected: &EntryLook<'_>,
    found: &EntryLook<'_>,
) -> Option<usize>
    requires kept { IsTraceKept trace.now }
    ensures same { IfNone result ((e : FoundEntry) → slice_get trace.now.found entry ≡ Some e →
        told found.now ≡ entry_of e →
        e ≡ found_entry trace.now.version trace.now.config (told expected.now)) }
    ensures before { IfSome result (λ k. (e : FoundEntry) → slice_get trace.now.found entry ≡
        Some e → told found.now ≡ entry_of e →
        take k (entry_records trace.now.version trace.now.config (told expected.now)) ≡
        take k (found_entry_records trace.now.version trace.now.config e)) }
    ensures few { IfSome result (λ k. k < 256) }
{
    if is_event_found(expected, found) {
        return None;
    }
    wrong_in_cycle(trace, entry, expected, found)
}
