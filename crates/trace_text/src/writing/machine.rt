// The machine part of a trace.

ghost use Rattle.std.specs.Prelude.{◌≡◌, OnOk};
ghost use Rattle.std.specs.List.{flat_map};
ghost use Rattle.std.specs.Io.KnownBytes.{Appends};
ghost use Rattle.csv.specs.Writing.{text_written};
ghost use Rattle.trace_text.specs.writing.Between.{IsBetween};
ghost use Rattle.trace_text.specs.writing.Parts.{items_text, machine_text};
ghost use Rattle.trace_text.specs.Records.{record_text, axis_fields, group_fields, table_fields, task_fields, block_fields};

use crate::command::Command;
use crate::writing::machine_record::{
    write_axis, write_block, write_group, write_header, write_room, write_table, write_task,
};
use cam_table::CamTable;
use csv::Writer;
use motion_history::{BlockDef, Config, GroupDef, OutOfMemory, TraceVersion};
use plc_types::{AxisDef, Name};
use std::alloc::Global;
use std::io::Write;

fn write_axes<W: Write + Drop>(
    wtr: &mut Writer<W>,
    version: TraceVersion,
    axes: &[AxisDef],
) -> Result<(), OutOfMemory>
    requires { IsBetween wtr.old }
    ensures text { OnOk result (Appends (text_written W.contents wtr.old)
        (text_written W.contents wtr.new)
        (flat_map (λ d. record_text (axis_fields version d)) axes.now)) }
    ensures between { OnOk result (IsBetween wtr.new) }
{
    for axis in axes {
        write_axis(wtr, version, axis)?;
    }
    Ok(())
}

fn write_groups<W: Write + Drop>(
    alloc: Global,
    wtr: &mut Writer<W>,
    config: &Config,
    groups: &[GroupDef],
) -> Result<(), OutOfMemory>
    requires { IsBetween wtr.old }
    ensures text { OnOk result (Appends (text_written W.contents wtr.old)
        (text_written W.contents wtr.new)
        (flat_map (λ g. record_text (group_fields config.now g)) groups.now)) }
    ensures between { OnOk result (IsBetween wtr.new) }
{
    for group in groups {
        write_group(alloc, wtr, config, group)?;
    }
    Ok(())
}

fn write_tables<W: Write + Drop>(
    alloc: Global,
    wtr: &mut Writer<W>,
    tables: &[CamTable],
) -> Result<(), OutOfMemory>
    requires { IsBetween wtr.old }
    ensures text { OnOk result (Appends (text_written W.contents wtr.old)
        (text_written W.contents wtr.new)
        (flat_map (λ t. record_text (table_fields t)) tables.now)) }
    ensures between { OnOk result (IsBetween wtr.new) }
{
    for table in tables {
        write_table(alloc, wtr, table)?;
    }
    Ok(())
}

fn write_tasks<W: Write + Drop>(wtr: &mut Writer<W>, tasks: &[Name]) -> Result<(), OutOfMemory>
    requires { IsBetween wtr.old }
    ensures text { OnOk result (Appends (text_written W.contents wtr.old)
        (text_written W.contents wtr.new)
        (flat_map (λ name. record_text (task_fields name)) tasks.now)) }
    ensures between { OnOk result (IsBetween wtr.new) }
{
    for name in tasks {
        write_task(wtr, name)?;
    }
    Ok(())
}

fn write_blocks<W: Write + Drop>(
    wtr: &mut Writer<W>,
    config: &Config,
    blocks: &[BlockDef],
) -> Result<(), OutOfMemory>
    requires { IsBetween wtr.old }
    ensures text { OnOk result (Appends (text_written W.contents wtr.old)
        (text_written W.contents wtr.new)
        (flat_map (λ d. record_text (block_fields config.now d)) blocks.now)) }
    ensures between { OnOk result (IsBetween wtr.new) }
{
    for block in blocks {
        write_block(wtr, config, block)?;
    }
    Ok(())
}

// The items of a machine.
#[tactic(auto, unfolding(crate::specs::writing::Parts::items_text))]
fn write_items<W: Write + Drop>(
    alloc: Global,
    wtr: &mut Writer<W>,
    version: TraceVersion,
    config: &Config,
) -> Result<(), OutOfMemory>
    requires { IsBetween wtr.old }
    ensures text { OnOk result (Appends (text_written W.contents wtr.old)
        (text_written W.contents wtr.new)
        (items_text version config.now)) }
    ensures between { OnOk result (IsBetween wtr.new) }
{
    write_axes(wtr, version, config.axes())?;
    write_groups(alloc, wtr, config, config.groups())?;
    write_tables(alloc, wtr, config.tables())?;
    write_tasks(wtr, config.tasks())?;
    write_blocks(wtr, config, config.blocks())
}

/// Writes the machine part.
#[tactic(auto, unfolding(crate::specs::writing::Parts::machine_text))]
pub fn write_machine<W: Write + Drop>(
    alloc: Global,
    wtr: &mut Writer<W>,
    version: TraceVersion,
    command: Command,
    config: &Config,
) -> Result<(), OutOfMemory>
    requires { IsBetween wtr.old }
    ensures text { OnOk result (Appends (text_written W.contents wtr.old)
        (text_written W.contents wtr.new)
        (machine_text version command config.now)) }
    ensures between { OnOk result (IsBetween wtr.new) }
{
    write_header(wtr)?;
    write_room(wtr, version, command, config)?;
    write_items(alloc, wtr, version, config)
}
