// Laws of traces that were written: each is the contract of a function that does nothing.

ghost use Rattle.std.specs.Prelude.{List, ℕ, Option};
ghost use Rattle.outside.specs.Told.{AppendsPart};
ghost use Rattle.trace_text.specs.ReadBack.{AreRowsReadBack, EntriesAreReadBack, RecordsAreReadBack, TextsTellRecords, TextsTellTraces, TracesAreReadBack};
ghost use Rattle.trace_text.specs.writing.Writes.{WritesPrefix};

use cam_table::cam_tables_are_told;
use motion_history::axes_are_in_range;
use plc_types::names_are_read_back;
use trace_columns::{columns_are_read_back, written_records_are_read_back};

/// Nothing of a text is a beginning of it, and so is a part of it that was taken. Nothing runs.
pub fn parts_are_beginnings()
    ensures none { (told : Option (List ℕ)) (text : List ℕ) → WritesPrefix told told text }
    ensures part { (old new : Option (List ℕ)) (text : List ℕ) →
        AppendsPart old new text → WritesPrefix old new text }
{}

/// The records of a trace's text are those of which it was made, field by field, and so are those
/// of an entry's text; so texts that are the same have the same records. Nothing runs.
pub fn records_are_read_back()
    ensures records { RecordsAreReadBack }
    ensures entries { EntriesAreReadBack }
    ensures told { TextsTellRecords }
{
    written_records_are_read_back();
}

/// What is written of a cycle's number, of a row and of what a drive took is read as it: for every
/// row of the ranges of its columns, without its offset, and except in version 1 with the place
/// that its drive reported. Nothing runs.
pub fn rows_are_read_back()
    ensures { AreRowsReadBack }
{
    columns_are_read_back();
}

/// The text of a history that a version can hold is read as the trace of which it was made: its
/// version, who made it, its machine, its entries with each row without its offset, and what its
/// drives took. So texts that are the same are those of the same trace. Nothing runs.
pub fn traces_are_read_back()
    ensures read { TracesAreReadBack }
    ensures told { TextsTellTraces }
{
    written_records_are_read_back();
    columns_are_read_back();
    names_are_read_back();
    axes_are_in_range();
    cam_tables_are_told();
}
