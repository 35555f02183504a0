// Whether an axis is driven, and the errors that its drive's answer brings.

ghost use Rattle.motion_numbers.specs.Ranges as ranges;
ghost use Rattle.cia402_machine.specs.Statusword.{state_of_word};
ghost use Rattle.plc_types.specs.Counts.{place_of};
ghost use Rattle.std.specs.Ordering.{int_eq};
ghost use Rattle.std.specs.Prelude.{◌≡◌, ◌≤◌, ◌<◌, unsigned_abs, not, ◌&&◌};
ghost use Rattle.axis_state.specs.Diagram.{IsFrom};
ghost use Rattle.axis_state.specs.declared.diagram.AxisEvent.TheVariants as event;
ghost use Rattle.axis_core.specs.Drives as spec;
ghost use Rattle.axis_core.specs.Kept.{HasDrive};

use crate::axis::Axis;
use crate::blocks::power::{enabled_from, is_powered};
use cia402_machine::state_of;
use motion_numbers::is_outside;
use plc_types::{
    AxisState, CYCLIC_SYNCHRONOUS_POSITION, DriveIn, DriveState, MOST_REPORTED, place,
};

/// DriveFault: the drive reads Fault or Fault reaction active.
const DRIVE_FAULT: u16 = 101;

/// DriveLost: the drive was driven and is not operational any more, with power on.
const DRIVE_LOST: u16 = 102;

/// ActualOutside: the drive would be driven from outside the limits.
const ACTUAL_OUTSIDE: u16 = 105;

// Whether a drive's answer is operational.
fn is_operational(input: &DriveIn) -> bool
    ensures { result ≡ (spec.is_enabled (state_of_word input.now.statusword)
        && int_eq input.now.mode_display CYCLIC_SYNCHRONOUS_POSITION) }
{
    matches!(
        state_of(input.statusword),
        Some(DriveState::OperationEnabled)
    ) && input.mode_display == CYCLIC_SYNCHRONOUS_POSITION
}

/// Whether a drive's answer reports a fault.
pub fn has_fault(input: &DriveIn) -> bool
    ensures { result ≡ spec.reads_fault (state_of_word input.now.statusword) }
{
    matches!(
        state_of(input.statusword),
        Some(DriveState::FaultReactionActive | DriveState::Fault)
    )
}

// Where the drive stands.
fn actual(axis: &Axis, input: &DriveIn) -> i64
    requires { HasDrive axis.now }
    ensures value { result ≡ place_of axis.now.limits.lo input.now.actual axis.now.offset
        axis.now.inc }
    ensures small { unsigned_abs result ≤ MOST_REPORTED }
{
    place(axis.limits.lo, input.actual, axis.offset, axis.inc)
}

// Whether the drive stands within the limits.
fn is_within(axis: &Axis, input: &DriveIn) -> bool
    requires { HasDrive axis.now }
    ensures { result ≡ not (ranges.is_outside axis.now.limits.lo
        (spec.actual_of axis.now input.now) axis.now.limits.hi) }
{
    !is_outside(axis.limits.lo, actual(axis, input), axis.limits.hi)
}

/// Whether the axis is driven in a cycle.
pub fn is_driven(axis: &Axis, input: &DriveIn) -> bool
    requires { HasDrive axis.now }
    ensures { result ≡ spec.is_driven axis.now input.now }
{
    is_powered(axis) && is_operational(input) && (axis.driven || is_within(axis, input))
}

// The error that a drive's answer brings.
fn new_error(axis: &Axis, input: &DriveIn) -> u16
    requires { HasDrive axis.now }
    ensures { result ≡ spec.new_error_of axis.now input.now }
{
    if has_fault(input) {
        DRIVE_FAULT
    } else if is_powered(axis) && axis.driven && !is_operational(input) {
        DRIVE_LOST
    } else if is_powered(axis) && is_operational(input) && !axis.driven && !is_within(axis, input) {
        ACTUAL_OUTSIDE
    } else {
        0
    }
}

/// The error that a drive's answer brings to the axis; one in ErrorStop gets no further error.
#[tactic(auto, using(crate::proofs::Events::error_from), unfolding(crate::specs::Drives::answer_error_of))]
pub fn answer_error(axis: &Axis, input: &DriveIn) -> u16
    requires { HasDrive axis.now }
    ensures value { result ≡ spec.answer_error_of axis.now input.now }
    ensures may { 0 < result → IsFrom axis.now.state event.Error }
{
    if matches!(axis.state, AxisState::ErrorStop) {
        0
    } else {
        new_error(axis, input)
    }
}

/// An axis that is not driven, or begins to be, stands where its drive does.
pub fn stand(driven: bool, input: &DriveIn, axis: &mut Axis)
    requires { HasDrive axis.old }
    ensures after { axis.new ≡ spec.axis_at_drive driven input.now axis.old }
    ensures small { unsigned_abs axis.new.setpoint ≤ MOST_REPORTED }
{
    let place = actual(axis, input);
    axis.state = enabled_from(driven, axis.state);
    axis.driven = driven;
    axis.previous = place;
    axis.setpoint = place;
}
