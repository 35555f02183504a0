// MC_Power: its Enable is taken at each call (PLCopen Motion Control Part 1).

ghost use Rattle.std.specs.Prelude.{◌≡◌, false, ◌&&◌, not};
ghost use Rattle.axis_state.specs.States.{is_error_stop};
ghost use Rattle.axis_core.specs.blocks.Power as spec;

use crate::axis::Axis;
use axis_state::{AxisEvent, axis_next};
use plc_types::AxisState;

/// Whether power is on in a cycle.
pub fn is_powered(axis: &Axis) -> bool
    ensures { result ≡ (axis.now.power && not axis.now.was_off) }
{
    axis.power && !axis.was_off
}

/// The wish that a Power call leaves.
pub fn wish(enable: bool, axis: &mut Axis)
    ensures { axis.new ≡ spec.axis_with_wish enable axis.old }
{
    if enable {
        axis.power = true;
    } else {
        axis.power = false;
        axis.was_off = true;
    }
}

/// The axis whose power goes off, apart from its commands.
pub fn switch_off(axis: &mut Axis)
    requires { is_error_stop axis.old.state ≡ false }
    ensures { axis.new ≡ spec.axis_without_power axis.old }
{
    axis.state = axis_next(axis.state, AxisEvent::PowerOff);
    axis.reached = false;
    axis.hold = None;
}

/// The state at the first cycle of a driven spell.
pub fn enabled_from(driven: bool, state: AxisState) -> AxisState
    ensures { result ≡ spec.state_when_driven driven state }
{
    match (driven, state) {
        (true, AxisState::Disabled) => axis_next(state, AxisEvent::DrivenFirst),
        _ => state,
    }
}
