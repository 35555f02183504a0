// A cycle of a history in a trace, with a row for each axis and each group.

ghost use Rattle.std.specs.Prelude.{◌≡◌, ◌≤◌, ◌^◌, ◌++◌, ◌+ℤ◌, ◌-ℤ◌, ◌*ℤ◌, ◌&&◌, int_lt, unsigned_abs, OnOk};
ghost use Rattle.std.specs.Io.KnownBytes.{Appends};
ghost use Rattle.csv.specs.Writing.{text_written};
ghost use Rattle.trace_text.specs.writing.Between.{IsBetween};
ghost use Rattle.trace_text.specs.Records.{record_text, cycle_fields, row_fields, grow_fields};
ghost use Rattle.trace_text.specs.Records as spec;
ghost use Rattle.trace_text.specs.Trace.{numbered, text_of};

use crate::records::{group_name, write_record, write_whole};
use csv::Writer;
use itoa::Buffer;
use motion_history::{Config, OutOfMemory, TraceVersion, axis_name, name_text};
use plc_types::{AxisDef, AxisRow, GroupRow};
use std::io::Write;
use trace_columns::{axis_state_text, flag_text, group_state_text, hex_text};

fn write_cycle<W: Write + Drop>(wtr: &mut Writer<W>, number: u32) -> Result<(), OutOfMemory>
    requires { IsBetween wtr.old }
    ensures text { OnOk result (Appends (text_written W.contents wtr.old)
        (text_written W.contents wtr.new)
        (record_text (cycle_fields number))) }
    ensures between { OnOk result (IsBetween wtr.new) }
{
    let mut digits = Buffer::new();
    write_record(wtr, &[b"cycle", digits.format(number).as_bytes()])
}

// The place of a count, as many increments from the offset.
fn counted_place(count: i32, inc: i64, offset: i64) -> i128
    ensures value { result ≡ (count *ℤ inc) +ℤ offset }
    ensures small { unsigned_abs result ≤ 2 ^ 96 }
{
    i128::from(count) * i128::from(inc) + i128::from(offset)
}

// Whether a place lies less than an increment below the lowest one.
fn is_just_below(lo: i64, inc: i64, counted: i128) -> bool
    ensures { result ≡ (int_lt (lo -ℤ inc) counted && int_lt counted lo) }
{
    i128::from(lo) - i128::from(inc) < counted && counted < i128::from(lo)
}

/// The place that the drive of an axis reports in a row, in internal units.
#[tactic(auto, unfolding(plc_types::specs::Counts::place_of))]
pub fn reported_place(axis: &AxisDef, row: &AxisRow) -> i128
    ensures { result ≡ spec.reported_place axis.now row.now }
{
    let counted = counted_place(row.input.actual, axis.inc, row.offset);
    if is_just_below(axis.limits.lo, axis.inc, counted) {
        i128::from(axis.limits.lo)
    } else {
        counted
    }
}

// The text of that place; version 1 has no field for it.
#[tactic(auto, unfolding(crate::specs::Records::reported_text))]
fn reported_text<'a>(
    digits: &'a mut Buffer,
    version: TraceVersion,
    config: &Config,
    axis: usize,
    row: &AxisRow,
) -> &'a [u8]
    ensures { result.now ≡ spec.reported_text version config.now axis row.now }
{
    match version {
        TraceVersion::One => b"",
        TraceVersion::Two | TraceVersion::Three => match config.axes().get(axis) {
            Some(def) => digits.format(reported_place(def, row)).as_bytes(),
            None => b"",
        },
    }
}

#[tactic(auto, unfolding(crate::specs::Records::record_text))]
fn write_row<W: Write + Drop>(
    wtr: &mut Writer<W>,
    version: TraceVersion,
    config: &Config,
    axis: usize,
    row: &AxisRow,
) -> Result<(), OutOfMemory>
    requires { IsBetween wtr.old }
    ensures text { OnOk result (Appends (text_written W.contents wtr.old)
        (text_written W.contents wtr.new)
        (record_text (row_fields version config.now axis row.now))) }
    ensures between { OnOk result (IsBetween wtr.new) }
{
    let name = axis_name(config, axis);
    let statusword = hex_text(row.input.statusword);
    let mut actual = Buffer::new();
    let mut mode_display = Buffer::new();
    let mut error = Buffer::new();
    let mut setpoint = Buffer::new();
    let controlword = hex_text(row.output.controlword);
    let mut target = Buffer::new();
    let mut reported = Buffer::new();
    write_whole(
        wtr,
        &[
            b"row",
            name_text(&name),
            &statusword,
            actual.format(row.input.actual).as_bytes(),
            mode_display.format(row.input.mode_display).as_bytes(),
            axis_state_text(row.state).as_bytes(),
            error.format(row.error).as_bytes(),
            flag_text(row.driven).as_bytes(),
            setpoint.format(row.setpoint).as_bytes(),
            &controlword,
            target.format(row.output.target).as_bytes(),
            reported_text(&mut reported, version, config, axis, row),
        ],
    )
}

#[tactic(auto, unfolding(crate::specs::Trace::text_of))]
fn write_rows<W: Write + Drop>(
    wtr: &mut Writer<W>,
    version: TraceVersion,
    config: &Config,
    rows: &[AxisRow],
) -> Result<(), OutOfMemory>
    requires { IsBetween wtr.old }
    ensures text { OnOk result (Appends (text_written W.contents wtr.old)
        (text_written W.contents wtr.new)
        (text_of (numbered (row_fields version config.now) 0 rows.now))) }
    ensures between { OnOk result (IsBetween wtr.new) }
{
    for (i, row) in rows.iter().enumerate() {
        write_row(wtr, version, config, i, row)?;
    }
    Ok(())
}

fn write_grow<W: Write + Drop>(
    wtr: &mut Writer<W>,
    config: &Config,
    group: usize,
    row: &GroupRow,
) -> Result<(), OutOfMemory>
    requires { IsBetween wtr.old }
    ensures text { OnOk result (Appends (text_written W.contents wtr.old)
        (text_written W.contents wtr.new)
        (record_text (grow_fields config.now group row.now))) }
    ensures between { OnOk result (IsBetween wtr.new) }
{
    let name = group_name(config, group);
    let mut error = Buffer::new();
    write_record(
        wtr,
        &[
            b"grow",
            name_text(&name),
            group_state_text(row.state).as_bytes(),
            error.format(row.error).as_bytes(),
        ],
    )
}

#[tactic(auto, unfolding(crate::specs::Trace::text_of))]
fn write_grows<W: Write + Drop>(
    wtr: &mut Writer<W>,
    config: &Config,
    rows: &[GroupRow],
) -> Result<(), OutOfMemory>
    requires { IsBetween wtr.old }
    ensures text { OnOk result (Appends (text_written W.contents wtr.old)
        (text_written W.contents wtr.new)
        (text_of (numbered (grow_fields config.now) 0 rows.now))) }
    ensures between { OnOk result (IsBetween wtr.new) }
{
    for (i, row) in rows.iter().enumerate() {
        write_grow(wtr, config, i, row)?;
    }
    Ok(())
}

/// A cycle with a row for each axis and each group.
pub fn write_cycle_and_rows<W: Write + Drop>(
    wtr: &mut Writer<W>,
    version: TraceVersion,
    config: &Config,
    number: u32,
    axes: &[AxisRow],
    groups: &[GroupRow],
) -> Result<(), OutOfMemory>
    requires { IsBetween wtr.old }
    ensures text { OnOk result (Appends (text_written W.contents wtr.old)
        (text_written W.contents wtr.new)
        (record_text (cycle_fields number) ++
        text_of (numbered (row_fields version config.now) 0 axes.now) ++
        text_of (numbered (grow_fields config.now) 0 groups.now))) }
    ensures between { OnOk result (IsBetween wtr.new) }
{
    write_cycle(wtr, number)?;
    write_rows(wtr, version, config, axes)?;
    write_grows(wtr, config, groups)
}
