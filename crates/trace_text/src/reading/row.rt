// The rows of cycles, and what the drives took, read from the records of a trace.

ghost use Rattle.std.specs.Prelude.{◌≡◌};
ghost use Rattle.line_text.specs.Reading.{Gives};
ghost use Rattle.line_text.specs.Texts.{texts};
ghost use Rattle.trace_text.specs.reading.RowFields.{fields_of};
ghost use Rattle.trace_text.specs.reading.Rows as spec;

use crate::drive_end::DriveEndRow;
use crate::reading::name::{is_axis_name, is_group_name};
use crate::reading::rule::{NO_VALUE, are_empty, is_empty, value};
use line_text::{LineFault, broken_unless};
use motion_history::{Builder, TraceVersion};
use plc_types::{AxisRow, AxisState, CYCLIC_SYNCHRONOUS_POSITION, DriveIn, DriveOut, GroupRow};
use trace_columns::{
    axis_state_of, drive_state_of, flag_of, group_state_of, hex_of, int_of, small_int_of,
    unsigned_of, wide_number_of, word_of,
};

/// What an axis shows: its state, its error, whether it is driven, and its setpoint.
#[derive(Clone, Copy)]
pub struct Shown {
    pub state: AxisState,
    pub error: u16,
    pub driven: bool,
    pub setpoint: i64,
}

/// The fields of a row.
#[derive(Clone, Copy)]
pub struct RowFields<'a> {
    /// The axis.
    pub name: &'a [u8],
    /// What the drive answered: statusword, actual position and mode.
    pub answer: &'a [&'a [u8]],
    /// What the axis shows: state, error, whether it is driven, and setpoint.
    pub shown: &'a [&'a [u8]],
    /// What the drive was given: controlword and target.
    pub given: &'a [&'a [u8]],
    /// The place that the drive reported.
    pub place: &'a [u8],
}

/// The row of the axis of a number, without its offset, and the place that its drive reported.
#[tactic(auto, unfolding(crate::specs::reading::Rows::row_meaning))]
pub fn row_of(
    version: TraceVersion,
    machine: &Builder,
    axis: usize,
    fields: &[&[u8]],
) -> Result<(AxisRow, Option<i64>), LineFault>
    ensures { Gives (λ r. r) (spec.row_meaning version machine.now axis (texts fields.now)) result }
{
    let [
        name,
        statusword,
        actual,
        mode_display,
        state,
        error,
        driven,
        setpoint,
        controlword,
        target,
        place,
    ] = fields
    else {
        return Err(LineFault::Rule(NO_VALUE));
    };
    let fields = RowFields {
        name,
        answer: &[statusword, actual, mode_display],
        shown: &[state, error, driven, setpoint],
        given: &[controlword, target],
        place,
    };
    row_by(version, machine, axis, &fields)
}

// The row of these fields.
#[tactic(auto, unfolding(crate::specs::reading::Rows::row_by))]
fn row_by(
    version: TraceVersion,
    machine: &Builder,
    axis: usize,
    fields: &RowFields<'_>,
) -> Result<(AxisRow, Option<i64>), LineFault>
    ensures { Gives (λ r. r) (spec.row_by version machine.now axis (fields_of fields.now)) result }
{
    broken_unless(is_axis_name(machine, axis, fields.name), NO_VALUE)?;
    let input = answer_of(fields.answer)?;
    let shown = shown_of(fields.shown)?;
    let output = given_of(fields.given)?;
    let place = place_of(version, fields.place)?;
    let row = AxisRow {
        input,
        state: shown.state,
        error: shown.error,
        driven: shown.driven,
        setpoint: shown.setpoint,
        offset: 0,
        output,
    };
    Ok((row, place))
}

// What an axis shows.
#[tactic(auto, unfolding(crate::specs::reading::Rows::shown_of))]
fn shown_of(fields: &[&[u8]]) -> Result<Shown, LineFault>
    ensures { Gives (λ s. s) (spec.shown_of (texts fields.now)) result }
{
    let [state, error, driven, setpoint] = fields else {
        return Err(LineFault::Rule(NO_VALUE));
    };
    let state = value(axis_state_of(state))?;
    let error = value(word_of(error))?;
    let driven = value(flag_of(driven))?;
    let setpoint = value(wide_number_of(setpoint))?;
    Ok(Shown {
        state,
        error,
        driven,
        setpoint,
    })
}

// What a drive answered.
#[tactic(auto, unfolding(crate::specs::reading::Rows::answer_of))]
fn answer_of(fields: &[&[u8]]) -> Result<DriveIn, LineFault>
    ensures { Gives (λ d. d) (spec.answer_of (texts fields.now)) result }
{
    let [statusword, actual, mode_display] = fields else {
        return Err(LineFault::Rule(NO_VALUE));
    };
    let statusword = value(hex_of(statusword))?;
    let actual = value(int_of(actual))?;
    let mode_display = value(small_int_of(mode_display))?;
    Ok(DriveIn {
        statusword,
        mode_display,
        actual,
    })
}

// What a drive was given.
#[tactic(auto, unfolding(crate::specs::reading::Rows::given_of))]
fn given_of(fields: &[&[u8]]) -> Result<DriveOut, LineFault>
    ensures { Gives (λ d. d) (spec.given_of (texts fields.now)) result }
{
    let [controlword, target] = fields else {
        return Err(LineFault::Rule(NO_VALUE));
    };
    let controlword = value(hex_of(controlword))?;
    let target = value(int_of(target))?;
    Ok(DriveOut {
        controlword,
        mode: CYCLIC_SYNCHRONOUS_POSITION,
        target,
    })
}

// The place that a drive reported; version 1 has none.
#[tactic(auto, unfolding(crate::specs::reading::Rows::place_meaning))]
fn place_of(version: TraceVersion, text: &[u8]) -> Result<Option<i64>, LineFault>
    ensures { Gives (λ p. p) (spec.place_meaning version text.now) result }
{
    match version {
        TraceVersion::One => {
            broken_unless(is_empty(text), NO_VALUE)?;
            Ok(None)
        }
        TraceVersion::Two | TraceVersion::Three => {
            let place = value(wide_number_of(text))?;
            Ok(Some(place))
        }
    }
}

/// The row of the group of a number.
#[tactic(auto, unfolding(crate::specs::reading::Rows::grow_meaning))]
pub fn grow_of(machine: &Builder, group: usize, fields: &[&[u8]]) -> Result<GroupRow, LineFault>
    ensures { Gives (λ r. r) (spec.grow_meaning machine.now group (texts fields.now)) result }
{
    let [name, state, error, unused @ ..] = fields else {
        return Err(LineFault::Rule(NO_VALUE));
    };
    broken_unless(is_group_name(machine, group, name), NO_VALUE)?;
    let state = value(group_state_of(state))?;
    let error = value(word_of(error))?;
    broken_unless(are_empty(unused), NO_VALUE)?;
    Ok(GroupRow { state, error })
}

/// What the drive of the axis of a number took.
#[tactic(auto, unfolding(crate::specs::reading::Rows::drive_meaning))]
pub fn drive_of(machine: &Builder, axis: usize, fields: &[&[u8]]) -> Result<DriveEndRow, LineFault>
    ensures { Gives (λ d. d) (spec.drive_meaning machine.now axis (texts fields.now)) result }
{
    let [name, taken, state, actual, unused @ ..] = fields else {
        return Err(LineFault::Rule(NO_VALUE));
    };
    broken_unless(is_axis_name(machine, axis, name), NO_VALUE)?;
    let taken = value(unsigned_of(0, u32::MAX, taken))?;
    let state = value(drive_state_of(state))?;
    let actual = value(int_of(actual))?;
    broken_unless(are_empty(unused), NO_VALUE)?;
    Ok(DriveEndRow {
        taken,
        state,
        actual,
    })
}
