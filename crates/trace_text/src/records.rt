// Records of fields, by the crate `csv`, and the names that stand in them.

ghost use Rattle.std.specs.Prelude.{◌≡◌, ◌≤◌, length, map, OnOk};
ghost use Rattle.std.specs.Io.KnownBytes.{Appends};
ghost use Rattle.csv.specs.Writing.{default_writer, row_text, text_written};
ghost use Rattle.trace_text.specs.writing.Between.{IsBetween};
ghost use Rattle.trace_text.specs.Records as spec;
ghost use Rattle.trace_text.specs.Records.{record_text};

use csv::Writer;
use motion_history::{BlockDef, Config, OutOfMemory, axis_name};
use plc_types::Name;
use std::io::Write;

/// How many fields a record has.
pub const FIELDS: usize = 12;

/// Writes a record of these fields; the others are empty.
#[tactic(auto, unfolding(crate::specs::Records::record_text))]
pub fn write_record<W: Write + Drop>(
    wtr: &mut Writer<W>,
    fields: &[&[u8]],
) -> Result<(), OutOfMemory>
    requires between { IsBetween wtr.old }
    requires few { length fields.now ≤ FIELDS }
    ensures text { OnOk result (Appends (text_written W.contents wtr.old)
        (text_written W.contents wtr.new)
        (record_text (map (λ f. f.now) fields.now))) }
    ensures between { OnOk result (IsBetween wtr.new) }
{
    write_whole(wtr, &padded(fields))
}

/// Writes a record of these twelve fields.
#[tactic(auto, unfolding(crate::specs::Records::record_text))]
pub fn write_whole<W: Write + Drop>(
    wtr: &mut Writer<W>,
    fields: &[&[u8]; FIELDS],
) -> Result<(), OutOfMemory>
    requires { IsBetween wtr.old }
    ensures text { OnOk result (Appends (text_written W.contents wtr.old)
        (text_written W.contents wtr.new)
        (row_text default_writer (map (λ f. f.now) fields.now))) }
    ensures between { OnOk result (IsBetween wtr.new) }
{
    match wtr.write_fields(fields) {
        Ok(()) => Ok(()),
        Err(_) => Err(OutOfMemory),
    }
}

// These fields, and empty ones after them.
fn padded<'a>(fields: &[&'a [u8]]) -> [&'a [u8]; FIELDS]
    requires { length fields.now ≤ FIELDS }
    ensures { map (λ f. f.now) result ≡ spec.padded (map (λ f. f.now) fields.now) }
{
    let mut all: [&[u8]; FIELDS] = [b""; FIELDS];
    all[..fields.len()].copy_from_slice(fields);
    all
}

/// The name of a group, if it is there.
#[tactic(auto, unfolding(crate::specs::Records::group_name))]
pub fn group_name(config: &Config, number: usize) -> Option<Name>
    ensures { spec.text_or_none result ≡ spec.group_name config.now number }
{
    match config.groups().get(number) {
        Some(def) => Some(def.name),
        None => None,
    }
}

/// The name of a task, if it is there.
#[tactic(auto, unfolding(crate::specs::Records::task_name))]
pub fn task_name(config: &Config, number: usize) -> Option<Name>
    ensures { spec.text_or_none result ≡ spec.task_name config.now number }
{
    match config.tasks().get(number) {
        Some(name) => Some(*name),
        None => None,
    }
}

/// The name of what a block acts on, if it is there.
#[tactic(auto, unfolding(crate::specs::Records::object_name))]
pub fn object_name(config: &Config, block: &BlockDef) -> Option<Name>
    ensures { spec.text_or_none result ≡ spec.object_name config.now block.now }
{
    if block.kind.acts_on_group() {
        group_name(config, block.object as usize)
    } else {
        axis_name(config, block.object as usize)
    }
}
