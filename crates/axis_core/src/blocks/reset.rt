// MC_Reset: it is pending until a cycle in which it may be done (PLCopen Motion Control Part 1).

ghost use Rattle.std.specs.Prelude.{◌≡◌, ◌<◌, ◌++◌, length};
ghost use Rattle.buffer_modes.specs.Resets.{replaced_note};
ghost use Rattle.axis_core.specs.blocks.Reset as spec;

use crate::axis::Axis;
use crate::driving::has_fault;
use axis_state::{AxisEvent, axis_next};
use buffer_modes::{PendingReset, tell_reset};
use command_pool::{Finish, Notes, Wanted};
use plc_types::{AxisState, DriveIn};

/// A Reset is pending; one that it replaces is aborted.
pub fn await_reset(wanted: &Wanted, axis: &mut Axis, notes: &mut Notes)
    requires { length notes.old < 12 }
    ensures axis { axis.new ≡ spec.reset_pending wanted.now axis.old }
    ensures notes { notes.new ≡ notes.old ++ replaced_note axis.old.reset }
{
    if let Some(pending) = &axis.reset {
        tell_reset(pending, Finish::Aborted, notes);
    }
    axis.reset = Some(PendingReset {
        owner: wanted.owner,
    });
}

// Whether a pending Reset is done.
fn may_reset(input: &DriveIn, axis: &Axis) -> bool
    ensures { result ≡ spec.may_reset input.now axis.now }
{
    !matches!(axis.state, AxisState::ErrorStop)
        || (!has_fault(input) && (!axis.driven || axis.setpoint == axis.previous))
}

// The state after a Reset.
fn reset_from(driven: bool, state: AxisState) -> AxisState
    ensures { result ≡ spec.state_after_reset driven state }
{
    match (driven, state) {
        (true, AxisState::ErrorStop) => axis_next(state, AxisEvent::ResetDriven),
        (false, AxisState::ErrorStop) => axis_next(state, AxisEvent::ResetNotDriven),
        _ => state,
    }
}

// The axis after a Reset.
fn finish_reset(axis: &mut Axis)
    ensures { axis.new ≡ spec.after_reset axis.old }
{
    axis.state = reset_from(axis.driven, axis.state);
    axis.error = 0;
    axis.reset = None;
}

/// A pending Reset is done where it may be.
pub fn reset(input: &DriveIn, axis: &mut Axis, notes: &mut Notes)
    requires { length notes.old < 12 }
    ensures axis { axis.new ≡ spec.reset_axis axis.old.reset input.now axis.old }
    ensures notes { notes.new ≡ notes.old ++ spec.reset_notes axis.old.reset input.now axis.old }
{
    let Some(pending) = axis.reset else {
        return;
    };
    if may_reset(input, axis) {
        finish_reset(axis);
        tell_reset(&pending, Finish::Done, notes);
    }
}
