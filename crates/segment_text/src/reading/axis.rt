// Axes, read from the fields of a header's records.

ghost use Rattle.std.specs.Prelude.{◌≡◌};
ghost use Rattle.std.specs.Option.{option_map};
ghost use Rattle.line_text.specs.Texts.{texts};
ghost use Rattle.segment_text.specs.reading.Axes as spec;

use crate::reading::column::{owner_of, reset_of};
use crate::reading::command::active_of;
use axis_core::{Axis, AxisDef, AxisState};
use trace_columns::{axis_state_of, flag_of, hex_of, wide_number_of, word_of};

// An axis of which nothing is read yet.
#[tactic(auto, unfolding(crate::specs::reading::Axes::axis_by))]
fn axis_by(def: &AxisDef) -> Axis
    ensures { result ≡ spec.axis_by def.now }
{
    Axis {
        limits: def.limits,
        inc: def.inc,
        state: AxisState::Disabled,
        error: 0,
        power: false,
        was_off: false,
        driven: false,
        previous: 0,
        setpoint: 0,
        offset: 0,
        active: None,
        reached: false,
        reset: None,
        hold: None,
        controlword: 0,
    }
}

// An axis with its state, its error, and whether its active command has reached, and the fields
// after these.
#[tactic(auto, unfolding(crate::specs::reading::Axes::with_state))]
fn with_state<'a, 'b>(axis: Axis, fields: &'a [&'b [u8]]) -> Option<(Axis, &'a [&'b [u8]])>
    ensures { option_map (λ r. (r.0, texts r.1.now)) result ≡
        spec.with_state axis (texts fields.now) }
{
    let [state, error, reached, behind @ ..] = fields else {
        return None;
    };
    let state = axis_state_of(state)?;
    let error = word_of(error)?;
    let reached = flag_of(reached)?;
    Some((
        Axis {
            state,
            error,
            reached,
            ..axis
        },
        behind,
    ))
}

// An axis with its power, whether that was off, whether it was driven, and its controlword.
#[tactic(auto, unfolding(crate::specs::reading::Axes::with_power))]
fn with_power<'a, 'b>(axis: Axis, fields: &'a [&'b [u8]]) -> Option<(Axis, &'a [&'b [u8]])>
    ensures { option_map (λ r. (r.0, texts r.1.now)) result ≡
        spec.with_power axis (texts fields.now) }
{
    let [power, was_off, driven, controlword, behind @ ..] = fields else {
        return None;
    };
    let power = flag_of(power)?;
    let was_off = flag_of(was_off)?;
    let driven = flag_of(driven)?;
    let controlword = hex_of(controlword)?;
    Some((
        Axis {
            power,
            was_off,
            driven,
            controlword,
            ..axis
        },
        behind,
    ))
}

// An axis with its setpoints and its offset.
#[tactic(auto, unfolding(crate::specs::reading::Axes::with_places))]
fn with_places<'a, 'b>(axis: Axis, fields: &'a [&'b [u8]]) -> Option<(Axis, &'a [&'b [u8]])>
    ensures { option_map (λ r. (r.0, texts r.1.now)) result ≡
        spec.with_places axis (texts fields.now) }
{
    let [previous, setpoint, offset, behind @ ..] = fields else {
        return None;
    };
    let previous = wide_number_of(previous)?;
    let setpoint = wide_number_of(setpoint)?;
    let offset = wide_number_of(offset)?;
    Some((
        Axis {
            previous,
            setpoint,
            offset,
            ..axis
        },
        behind,
    ))
}

// An axis with its pending reset, its hold and its active command.
#[tactic(auto, unfolding(crate::specs::reading::Axes::with_commands))]
fn with_commands(axis: Axis, fields: &[&[u8]]) -> Option<Axis>
    ensures { result ≡ spec.with_commands axis (texts fields.now) }
{
    let [reset, hold, active @ ..] = fields else {
        return None;
    };
    let reset = reset_of(reset)?;
    let hold = owner_of(hold)?;
    let active = active_of(active)?;
    Some(Axis {
        reset,
        hold,
        active,
        ..axis
    })
}

/// The axis of this definition that fields are.
#[tactic(auto, unfolding(crate::specs::reading::Axes::axis_of))]
pub fn axis_of(def: &AxisDef, fields: &[&[u8]]) -> Option<Axis>
    ensures { result ≡ spec.axis_of def.now (texts fields.now) }
{
    let axis = axis_by(def);
    let (axis, fields) = with_state(axis, fields)?;
    let (axis, fields) = with_power(axis, fields)?;
    let (axis, fields) = with_places(axis, fields)?;
    with_commands(axis, fields)
}
