// Whether an axis satisfies the invariant.

ghost use Rattle.std.specs.Prelude.{◌≡◌, ◌↔◌, IsTrue};
ghost use Rattle.axis_core.specs.AxisKept.{IsAxisKept};

pub mod base;
pub mod command;
pub mod numbers;
pub mod state;
pub mod waiting;

use axis_core::Axis;
use base::is_based;
use command::has_command;
use state::is_in_state;

/// Whether an axis satisfies the invariant: its numbers are in their ranges and its setpoints can
/// be stopped within its limits, and its active command fits its state.
pub fn is_axis_kept(axis: &Axis) -> bool
    ensures { IsTrue result ↔ IsAxisKept axis.now }
{
    is_based(axis) && is_in_state(axis) && has_command(axis)
}
