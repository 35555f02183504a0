// The records of entries, read from the text that the writer of traces makes of them.

ghost use Rattle.std.specs.Prelude.{◌≡◌, ◌<◌, ℕ, IfOk, Some, slice_get};
ghost use Rattle.std.specs.Option.{option_map};
ghost use Rattle.trace_columns.specs.Records.{records_of};
ghost use Rattle.motion_history.specs.Looks.{told};
ghost use Rattle.trace_text.specs.Records.{padded};
ghost use Rattle.trace_text.specs.Trace.{entry_records};
ghost use Rattle.trace_text.specs.TraceState.{entry_of};
ghost use Rattle.trace_text.specs.declared.found.FoundEntry.{FoundEntry};
ghost use Rattle.trace_check.specs.FoundRecords.{found_entry_records};
ghost use Rattle.trace_text.specs.TraceKept.{IsTraceKept};

use crate::record::Record;
use csv::ByteRecord;
use itoa::Buffer;
use motion_history::{Config, EntryLook, OutOfMemory, TraceVersion};
use std::alloc::Global;
use trace_columns::{next_record, open_records};
use trace_text::{Trace, entry_piece, records_are_read_back};

// The record at a place of a text, counted from 0. It is there, and has twelve fields.
fn record_at(alloc: Global, text: &[u8], place: usize) -> Result<Record, OutOfMemory>
    ensures { IfOk result (λ r. slice_get (records_of text.now) place ≡ Some r) }
{
    let mut rdr = open_records(alloc, text);
    let mut row = ByteRecord::new(alloc);
    for _ in 0..place {
        if !next_record(&mut rdr, &mut row)? {
            return Err(OutOfMemory);
        }
    }
    if !next_record(&mut rdr, &mut row)? {
        return Err(OutOfMemory);
    }
    Record::of_row(row)
}

/// The record of an entry at a place in it, counted from 0.
pub fn entry_record(
    alloc: Global,
    version: TraceVersion,
    config: &Config,
    entry: &EntryLook<'_>,
    place: usize,
) -> Result<Record, OutOfMemory>
    ensures { IfOk result (λ r.
        option_map padded (slice_get (entry_records version config.now (told entry.now)) place) ≡
        Some r) }
{
    // laws
    records_are_read_back();
    let text = entry_piece(alloc, version, config, entry)?;
    record_at(alloc, text.as_slice(), place)
}

/// The record of an entry as it is found, at a place in it: after a row stands the place that was
/// found with it.
pub fn found_record(
    alloc: Global,
    trace: &Trace,
    entry: u64,
    found: &EntryLook<'_>,
    place: usize,
) -> Result<Record, OutOfMemory>
    requires kept { IsTraceKept trace.now }
    requires few { place < 256 }
    ensures { (e : FoundEntry) → slice_get trace.now.found entry ≡ Some e →
        told found.now ≡ entry_of e → IfOk result (λ r.
        option_map padded
        (slice_get (found_entry_records trace.now.version trace.now.config e) place) ≡ Some r) }
{
    let config = trace.config();
    if place == 0 {
        let first = entry_record(alloc, trace.version(), config, found, 0)?;
        return Ok(first);
    }
    let record = entry_record(alloc, TraceVersion::One, config, found, place)?;
    match trace.actual_of(entry, (place - 1) as u8) {
        Some(actual) => {
            let mut digits = Buffer::new();
            record.with_last(alloc, digits.format(actual).as_bytes())
        }
        None => Ok(record),
    }
}
