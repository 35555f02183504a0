// Whether a command may wait for an axis (PLCopen Motion Control Part 1, BufferMode).

ghost use Rattle.std.specs.Prelude.{◌≡◌, ◌↔◌, IsTrue, ◌≤◌, unsigned_abs};
ghost use Rattle.axis_core.specs.AxisKept.{IsWaiting, MayQueue};
ghost use Rattle.axis_core.specs.blocks.Moves.{position_of};
ghost use Rattle.plc_types.specs.Limits.{AreLimits};

use crate::axis::numbers::{are_numbers, has_small_target};
use axis_core::{Axis, AxisState, Limits, Wanted, may_wait};
use motion_numbers::MOST_NUMBER;

// Whether the first position of a command is small enough to be worked with.
fn has_small_position(wanted: &Wanted) -> bool
    ensures { IsTrue result ↔ (unsigned_abs (position_of wanted.now) ≤ MOST_NUMBER) }
{
    wanted.targets[0].unsigned_abs() <= MOST_NUMBER
}

// Whether a command may wait for an axis with these limits.
pub fn is_waiting(limits: &Limits, wanted: &Wanted) -> bool
    requires { AreLimits limits.now }
    ensures { IsTrue result ↔ IsWaiting limits.now wanted.now }
{
    may_wait(wanted.kind)
        && are_numbers(limits, wanted)
        && has_small_target(wanted)
        && has_small_position(wanted)
}

// Whether commands may wait after the active one.
pub fn may_queue(axis: &Axis) -> bool
    ensures { IsTrue result ↔ MayQueue axis.now.state axis.now.active }
{
    match axis.state {
        AxisState::DiscreteMotion | AxisState::ContinuousMotion | AxisState::SynchronizedMotion =>
            axis.active.is_some(),
        _ => false,
    }
}
