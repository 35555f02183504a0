// Whether the active command of an axis fits its state (PLCopen Motion Control Part 1).

ghost use Rattle.std.specs.Prelude.{◌≡◌, ◌↔◌, IsTrue, Some, ◌≤◌, ◌^◌, pos, ◌≤ℤ◌, ◌+ℤ◌, ◌-ℤ◌, unsigned_abs};
ghost use Rattle.axis_core.specs.AxisKept as kept;
ghost use Rattle.axis_core.specs.AxisKept.{IsActive, IsHomeWithin, IsReady};
ghost use Rattle.axis_state.specs.declared.diagram.AxisEvent.{AxisEvent};
ghost use Rattle.plc_types.specs.Counts.{HasCounts};
ghost use Rattle.command_pool.specs.declared.wanted.Wanted.{Wanted};
ghost use Rattle.plc_types.specs.Limits.{AreLimits};

use crate::axis::numbers::{are_numbers, has_small_target, is_fixed_within};
use crate::counts::has_counts;
use crate::limits::is_within;
use axis_core::{Axis, AxisState, BlockKind, Goal, Wanted, profile_for};
use axis_state::AxisEvent;

// Whether an event leads to a state.
fn fits_by(state: AxisState, event: Option<AxisEvent>) -> bool
    ensures { result ≡ kept.fits_by state event }
{
    match state {
        AxisState::DiscreteMotion => matches!(event, Some(AxisEvent::DiscreteActive)),
        AxisState::ContinuousMotion => matches!(event, Some(AxisEvent::VelocityActive)),
        AxisState::SynchronizedMotion => matches!(event, Some(AxisEvent::FollowActive)),
        AxisState::Stopping => matches!(event, Some(AxisEvent::StopAdmitted)),
        AxisState::Homing => matches!(event, Some(AxisEvent::HomeAdmitted)),
        _ => false,
    }
}

// Whether a command may be active in a state.
fn fits(state: AxisState, kind: BlockKind) -> bool
    ensures { result ≡ kept.fits state kind }
{
    fits_by(state, profile_for(kind).event)
}

// The offset of an axis once a Home has set its position.
fn offset_at(axis: &Axis, position: i64) -> i128
    ensures value { result ≡ axis.now.offset +ℤ (position -ℤ axis.now.setpoint) }
    ensures small { unsigned_abs result ≤ 2 ^ 66 }
{
    axis.offset as i128 + (position as i128 - axis.setpoint as i128)
}

// Whether the places of an axis have counts once a Home has set its position.
fn keeps_counts(axis: &Axis, position: i64) -> bool
    requires { pos 1 ≤ℤ axis.now.inc }
    ensures { IsTrue result ↔ HasCounts axis.now.limits
        (axis.now.offset +ℤ (position -ℤ axis.now.setpoint)) axis.now.inc }
{
    has_counts(&axis.limits, offset_at(axis, position), axis.inc)
}

// Whether a Home is to a position within the limits, where the axis has counts.
fn is_home_within(axis: &Axis, wanted: &Wanted) -> bool
    requires { pos 1 ≤ℤ axis.now.inc }
    ensures { IsTrue result ↔ IsHomeWithin axis.now.limits axis.now.inc axis.now.offset
        axis.now.setpoint wanted.now.target }
{
    match wanted.target {
        Some(target) => is_within(&axis.limits, target) && keeps_counts(axis, target),
        None => false,
    }
}

// Whether a command has what an active one of its kind has besides.
fn is_ready(axis: &Axis, wanted: &Wanted) -> bool
    requires { pos 1 ≤ℤ axis.now.inc }
    ensures { IsTrue result ↔ IsReady wanted.now.kind axis.now.limits axis.now.inc axis.now.offset
        axis.now.setpoint wanted.now }
{
    match profile_for(wanted.kind).goal {
        Goal::FromBefore(_) => is_fixed_within(&axis.limits, wanted),
        Goal::Origin => is_home_within(axis, wanted),
        Goal::NoGoal | Goal::Given => true,
    }
}

// Whether a command may be the active one of an axis.
fn is_active(axis: &Axis, wanted: &Wanted) -> bool
    requires limits { AreLimits axis.now.limits }
    requires increment { pos 1 ≤ℤ axis.now.inc }
    ensures { IsTrue result ↔ IsActive axis.now.state axis.now.limits axis.now.inc
        axis.now.offset axis.now.setpoint wanted.now }
{
    fits(axis.state, wanted.kind)
        && are_numbers(&axis.limits, wanted)
        && is_ready(axis, wanted)
        && has_small_target(wanted)
}

// Whether the active command of an axis, if there is one, may be so.
pub fn has_command(axis: &Axis) -> bool
    requires limits { AreLimits axis.now.limits }
    requires increment { pos 1 ≤ℤ axis.now.inc }
    ensures { IsTrue result ↔ ((w : Wanted) → axis.now.active ≡ Some w →
        IsActive axis.now.state axis.now.limits axis.now.inc axis.now.offset axis.now.setpoint w) }
{
    match &axis.active {
        Some(wanted) => is_active(axis, wanted),
        None => true,
    }
}
