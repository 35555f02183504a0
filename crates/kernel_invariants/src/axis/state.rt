// Whether an axis is as its state says (PLCopen Motion Control Part 1, the state diagram).

ghost use Rattle.std.specs.Prelude.{◌≡◌, ◌↔◌, IsTrue, None};
ghost use Rattle.axis_core.specs.AxisKept.{IsHoming, IsInState, IsOff, IsRunning, IsStanding};
ghost use Rattle.axis_core.specs.blocks.Power as power;

use axis_core::{Axis, AxisState};

// Whether power is on.
fn is_powered(axis: &Axis) -> bool
    ensures { result ≡ power.is_powered axis.now }
{
    axis.power && !axis.was_off
}

// Whether an axis is driven with power on.
fn is_running(axis: &Axis) -> bool
    ensures { IsTrue result ↔ IsRunning axis.now.driven (power.is_powered axis.now) }
{
    axis.driven && is_powered(axis)
}

// Whether an axis has step 0.
fn stands(axis: &Axis) -> bool
    ensures { IsTrue result ↔ (axis.now.previous ≡ axis.now.setpoint) }
{
    axis.previous == axis.setpoint
}

// Whether an axis has no command.
fn is_idle(axis: &Axis) -> bool
    ensures { IsTrue result ↔ (axis.now.active ≡ None) }
{
    axis.active.is_none()
}

// Whether an axis may be Disabled.
fn is_off(axis: &Axis) -> bool
    ensures { IsTrue result ↔ IsOff axis.now.driven axis.now.was_off axis.now.active }
{
    is_idle(axis) && (!axis.driven || axis.was_off)
}

// Whether an axis may be in Standstill.
fn is_standing(axis: &Axis) -> bool
    ensures { IsTrue result ↔ IsStanding axis.now.driven (power.is_powered axis.now)
        axis.now.previous axis.now.setpoint axis.now.active }
{
    is_running(axis) && stands(axis) && is_idle(axis)
}

// Whether an axis may be in Homing.
fn is_homing(axis: &Axis) -> bool
    ensures { IsTrue result ↔ IsHoming axis.now.driven (power.is_powered axis.now)
        axis.now.previous axis.now.setpoint }
{
    is_running(axis) && stands(axis)
}

// Whether an axis is as its state says.
pub fn is_in_state(axis: &Axis) -> bool
    ensures { IsTrue result ↔ IsInState axis.now.state axis.now.driven (power.is_powered axis.now)
        axis.now.was_off axis.now.previous axis.now.setpoint axis.now.active }
{
    match axis.state {
        AxisState::Disabled => is_off(axis),
        AxisState::ErrorStop => is_idle(axis),
        AxisState::Standstill => is_standing(axis),
        AxisState::Homing => is_homing(axis),
        AxisState::Stopping
        | AxisState::DiscreteMotion
        | AxisState::ContinuousMotion
        | AxisState::SynchronizedMotion => is_running(axis),
    }
}
