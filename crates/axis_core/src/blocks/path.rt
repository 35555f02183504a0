// The axis on its group's path (PLCopen Motion Control Part 4).

ghost use Rattle.std.specs.Prelude.{◌≡◌, true};
ghost use Rattle.axis_state.specs.States.{is_synchronized};
ghost use Rattle.axis_core.specs.Steps.{axis_after_step};
ghost use Rattle.axis_core.specs.blocks.Path as spec;

use crate::axis::Axis;
use crate::look::AxisLook;
use crate::steps::move_to;
use axis_state::{AxisEvent, axis_next};
use plc_types::AxisState;

// The state of an axis that goes on its group's path, or leaves it.
fn on_path_from(on: bool, state: AxisState) -> AxisState
    ensures { result ≡ spec.state_on_path on state }
{
    match (on, state) {
        (true, AxisState::Standstill) => axis_next(state, AxisEvent::GroupActive),
        (false, AxisState::SynchronizedMotion) => axis_next(state, AxisEvent::PathRest),
        _ => state,
    }
}

/// The axis goes on its group's path, or leaves it.
#[tactic(auto, unfolding(crate::specs::blocks::Path::axis_on_path))]
pub fn on_path(on: bool, axis: &mut Axis)
    ensures { axis.new ≡ spec.axis_on_path on axis.old }
{
    axis.state = on_path_from(on, axis.state);
}

/// The place that an axis takes on its group's path, if it is on it.
pub fn place_on_path(axis: &Axis, look: &AxisLook) -> Option<i64>
    ensures { result ≡ spec.place_on_path axis.now look.now }
{
    if matches!(axis.state, AxisState::SynchronizedMotion) && axis.active.is_none() {
        look.path
    } else {
        None
    }
}

/// An axis on its group's path takes its place, and leaves the path where that ends.
pub fn take_place(place: i64, ends: bool, axis: &mut Axis)
    requires { is_synchronized axis.old.state ≡ true }
    ensures { axis.new ≡ spec.axis_after_path ends (axis_after_step place axis.old) }
{
    move_to(place, axis);
    if ends {
        axis.state = axis_next(axis.state, AxisEvent::PathRest);
    }
}
