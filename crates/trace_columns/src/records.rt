// The records of a text of comma-separated fields (RFC 4180), read one after another by the crate
// `csv`, whose own definition of what it reads is cited here.

ghost use Rattle.std.specs.Prelude.{◌≡◌, [], List, ℕ, IfOk, slice_index_or};
ghost use Rattle.csv.specs.Records.{fields_of};
ghost use Rattle.trace_columns.specs.Records.{IsReading, RecordsAreReadBack, TakesNext, records_of, slice_left};

use csv::{ByteRecord, Reader, ReaderBuilder};
use motion_numbers::OutOfMemory;
use std::alloc::Global;

/// A reader of the records of a text, of any number of fields, without a header row.
pub fn open_records(alloc: Global, text: &[u8]) -> Reader<&[u8]>
    ensures { IsReading slice_left result (records_of text.now) }
{
    ReaderBuilder::new()
        .has_headers(false)
        .flexible(true)
        .from_reader(alloc, text)
}

/// Reads the next record into `row`, if there is one. After an error the reader is given up.
pub fn next_record(rdr: &mut Reader<&[u8]>, row: &mut ByteRecord) -> Result<bool, OutOfMemory>
    ensures { (left : List (List (List ℕ))) → IsReading slice_left rdr.old left →
        IfOk result (λ found. TakesNext left found (fields_of row.new) slice_left rdr.new) }
{
    let Ok(found) = rdr.read_byte_record(row) else {
        return Err(OutOfMemory);
    };
    Ok(found)
}

/// The field at a place counted from 0, empty where there is none.
pub fn field(row: &ByteRecord, place: usize) -> &[u8]
    ensures { result.now ≡ slice_index_or (fields_of row.now) place [] }
{
    match row.get(place) {
        Some(field) => field,
        None => b"",
    }
}

/// Records of one field or more, written in the default form, are those that are read of their
/// text. Nothing runs.
pub fn written_records_are_read_back()
    ensures { RecordsAreReadBack }
{}
