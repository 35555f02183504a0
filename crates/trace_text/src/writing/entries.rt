// The entries of a history, and what the drives took, in a trace.

ghost use Rattle.std.specs.Prelude.{◌≡◌, OnOk};
ghost use Rattle.std.specs.Io.KnownBytes.{Appends};
ghost use Rattle.csv.specs.Writing.{text_written};
ghost use Rattle.motion_history.specs.Looks.{told};
ghost use Rattle.trace_text.specs.writing.Between.{IsBetween};
ghost use Rattle.trace_text.specs.writing.Parts.{drives_text, entry_text};
ghost use Rattle.trace_text.specs.Records.{record_text, end_fields, drive_fields};

use crate::drive_end::DriveEndRow;
use crate::records::{task_name, write_record};
use crate::writing::block_calls::write_call;
use crate::writing::cycle_rows::write_cycle_and_rows;
use csv::Writer;
use itoa::Buffer;
use motion_history::{Config, EntryLook, OutOfMemory, TraceVersion, axis_name, name_text};
use std::alloc::Global;
use std::io::Write;
use trace_columns::drive_state_text;

fn write_end<W: Write + Drop>(
    wtr: &mut Writer<W>,
    config: &Config,
    task: u8,
) -> Result<(), OutOfMemory>
    requires { IsBetween wtr.old }
    ensures text { OnOk result (Appends (text_written W.contents wtr.old)
        (text_written W.contents wtr.new)
        (record_text (end_fields config.now task))) }
    ensures between { OnOk result (IsBetween wtr.new) }
{
    let name = task_name(config, task as usize);
    write_record(wtr, &[b"end", name_text(&name)])
}

/// Writes an entry.
#[tactic(auto, unfolding(crate::specs::writing::Parts::entry_text))]
pub fn write_entry<W: Write + Drop>(
    alloc: Global,
    wtr: &mut Writer<W>,
    version: TraceVersion,
    config: &Config,
    entry: &EntryLook<'_>,
) -> Result<(), OutOfMemory>
    requires { IsBetween wtr.old }
    ensures text { OnOk result (Appends (text_written W.contents wtr.old)
        (text_written W.contents wtr.new)
        (entry_text version config.now (told entry.now))) }
    ensures between { OnOk result (IsBetween wtr.new) }
{
    match entry {
        EntryLook::Call {
            instance,
            inputs,
            reply,
        } => write_call(alloc, wtr, version, config, *instance, inputs, reply),
        EntryLook::Cycle {
            number,
            axes,
            groups,
        } => write_cycle_and_rows(wtr, version, config, *number, axes, groups),
        EntryLook::End { task } => write_end(wtr, config, *task),
    }
}

fn write_drive<W: Write + Drop>(
    wtr: &mut Writer<W>,
    config: &Config,
    axis: usize,
    drive: &DriveEndRow,
) -> Result<(), OutOfMemory>
    requires { IsBetween wtr.old }
    ensures text { OnOk result (Appends (text_written W.contents wtr.old)
        (text_written W.contents wtr.new)
        (record_text (drive_fields config.now axis drive.now))) }
    ensures between { OnOk result (IsBetween wtr.new) }
{
    let name = axis_name(config, axis);
    let mut taken = Buffer::new();
    let mut actual = Buffer::new();
    write_record(
        wtr,
        &[
            b"drive",
            name_text(&name),
            taken.format(drive.taken).as_bytes(),
            drive_state_text(drive.state).as_bytes(),
            actual.format(drive.actual).as_bytes(),
        ],
    )
}

/// Writes what each drive took.
#[tactic(auto, unfolding(crate::specs::writing::Parts::drives_text, crate::specs::Trace::drive_records, crate::specs::Trace::text_of))]
pub fn write_drives<W: Write + Drop>(
    wtr: &mut Writer<W>,
    config: &Config,
    drives: &[DriveEndRow],
) -> Result<(), OutOfMemory>
    requires { IsBetween wtr.old }
    ensures text { OnOk result (Appends (text_written W.contents wtr.old)
        (text_written W.contents wtr.new)
        (drives_text config.now drives.now)) }
    ensures between { OnOk result (IsBetween wtr.new) }
{
    for (i, drive) in drives.iter().enumerate() {
        write_drive(wtr, config, i, drive)?;
    }
    Ok(())
}
