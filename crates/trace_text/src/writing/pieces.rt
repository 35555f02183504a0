// The text of a trace in pieces, each made whole before it is put out.

ghost use Rattle.std.specs.Prelude.{◌≡◌, ◌+◌, ◌<◌, ◌^◌, IfOk, OnOk, take, drop, slice_get};
ghost use Rattle.std.specs.Option.{option_to_list};
ghost use Rattle.std.specs.List.{flat_map};
ghost use Rattle.std.specs.Io.KnownBytes.{Appends};
ghost use Rattle.csv.specs.Writing.{text_written};
ghost use Rattle.motion_history.specs.Looks.{told};
ghost use Rattle.trace_text.specs.writing.Between.{IsBetween};
ghost use Rattle.trace_text.specs.writing.Parts.{machine_text, drives_text, entry_text};

use crate::command::Command;
use crate::drive_end::DriveEndRow;
use crate::writing::entries::{write_drives, write_entry};
use crate::writing::machine::write_machine;
use csv::{Writer, WriterBuilder};
use motion_history::{Config, EntryLook, History, OutOfMemory, TraceVersion};
use std::alloc::Global;
use std::io::Write;

/// The room of a piece's bytes before it grows.
const ROOM: usize = 256 * 1024;

/// The text of the machine part.
pub fn machine_piece(
    alloc: Global,
    version: TraceVersion,
    command: Command,
    config: &Config,
) -> Result<Vec<u8>, OutOfMemory>
    ensures { IfOk result (λ v. v.items ≡ machine_text version command config.now) }
{
    let mut wtr = WriterBuilder::new().from_writer(Vec::new(alloc));
    write_machine(alloc, &mut wtr, version, command, config)?;
    match wtr.into_inner() {
        Ok(text) => Ok(text),
        Err(e) => {
            let _ = e.into_error();
            Err(OutOfMemory)
        }
    }
}

/// The text of what the drives took.
pub fn drives_piece(
    alloc: Global,
    config: &Config,
    drives: &[DriveEndRow],
) -> Result<Vec<u8>, OutOfMemory>
    ensures { IfOk result (λ v. v.items ≡ drives_text config.now drives.now) }
{
    let mut wtr = WriterBuilder::new().from_writer(Vec::new(alloc));
    write_drives(&mut wtr, config, drives)?;
    match wtr.into_inner() {
        Ok(text) => Ok(text),
        Err(e) => {
            let _ = e.into_error();
            Err(OutOfMemory)
        }
    }
}

/// The text of an entry.
pub fn entry_piece(
    alloc: Global,
    version: TraceVersion,
    config: &Config,
    entry: &EntryLook<'_>,
) -> Result<Vec<u8>, OutOfMemory>
    ensures { IfOk result (λ v. v.items ≡ entry_text version config.now (told entry.now)) }
{
    let mut wtr = WriterBuilder::new().from_writer(Vec::new(alloc));
    write_entry(alloc, &mut wtr, version, config, entry)?;
    match wtr.into_inner() {
        Ok(text) => Ok(text),
        Err(e) => {
            let _ = e.into_error();
            Err(OutOfMemory)
        }
    }
}

// Writes the entry at a place, if it is there.
fn write_entry_at<W: Write + Drop>(
    alloc: Global,
    wtr: &mut Writer<W>,
    version: TraceVersion,
    config: &Config,
    history: &History,
    place: u64,
) -> Result<(), OutOfMemory>
    requires { IsBetween wtr.old }
    ensures text { OnOk result (Appends (text_written W.contents wtr.old)
        (text_written W.contents wtr.new)
        (flat_map (entry_text version config.now)
        (option_to_list (slice_get history.now.entries place)))) }
    ensures between { OnOk result (IsBetween wtr.new) }
{
    match history.look(place) {
        Some(entry) => write_entry(alloc, wtr, version, config, &entry),
        None => Ok(()),
    }
}

// Writes this many entries from a place on.
fn write_entries<W: Write + Drop>(
    alloc: Global,
    wtr: &mut Writer<W>,
    version: TraceVersion,
    config: &Config,
    history: &History,
    from: u64,
    count: u64,
) -> Result<(), OutOfMemory>
    requires between { IsBetween wtr.old }
    requires fits { from + count < 2 ^ 64 }
    ensures text { OnOk result (Appends (text_written W.contents wtr.old)
        (text_written W.contents wtr.new)
        (flat_map (entry_text version config.now) (take count (drop from history.now.entries)))) }
    ensures between { OnOk result (IsBetween wtr.new) }
{
    for i in 0..count {
        write_entry_at(alloc, wtr, version, config, history, from + i)?;
    }
    Ok(())
}

/// The text of this many entries from a place on.
pub fn entries_piece(
    alloc: Global,
    version: TraceVersion,
    config: &Config,
    history: &History,
    from: u64,
    count: u64,
) -> Result<Vec<u8>, OutOfMemory>
    requires { from + count < 2 ^ 64 }
    ensures { IfOk result (λ v. v.items ≡
        flat_map (entry_text version config.now) (take count (drop from history.now.entries))) }
{
    let Ok(room) = Vec::with_capacity(alloc, ROOM) else {
        return Err(OutOfMemory);
    };
    let mut wtr = WriterBuilder::new().from_writer(room);
    write_entries(alloc, &mut wtr, version, config, history, from, count)?;
    match wtr.into_inner() {
        Ok(text) => Ok(text),
        Err(e) => {
            let _ = e.into_error();
            Err(OutOfMemory)
        }
    }
}
