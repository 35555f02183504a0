// Whether the drives of axes are led as a kernel leads them.

ghost use Rattle.std.specs.Prelude.{◌≡◌, ◌↔◌, ◌<◌, IsTrue, length, true};
ghost use Rattle.axis_core.specs.Ranges.{IsBetween};
ghost use Rattle.motion_kernel.specs.Machine.{axis_at};
ghost use Rattle.motion_kernel.specs.kept.Machine.{IsSized};
ghost use Rattle.motion_laws.specs.Standing as standing;
ghost use Rattle.motion_laws.specs.Standing.{IsSteered};
ghost use Rattle.segment_check.specs.Flaws.{AreSteered};

use axis_core::Axis;
use motion_history::Config;
use motion_kernel::Start;

// Whether a controlword is one that the kernel gives.
fn is_given(word: u16) -> bool
    ensures { result ≡ standing.is_given word }
{
    word == 0x0000 || word == 0x0006 || word == 0x0007 || word == 0x000f || word == 0x0080
}

// Whether the setpoint before the last one lies within the limits.
fn lies_within(axis: &Axis) -> bool
    ensures { IsTrue result ↔
        IsBetween axis.now.limits.lo axis.now.previous axis.now.limits.hi }
{
    axis.limits.lo <= axis.previous && axis.previous <= axis.limits.hi
}

// Whether it does while the axis is driven.
fn came_within(axis: &Axis) -> bool
    ensures { IsTrue result ↔ (axis.now.driven ≡ true →
        IsBetween axis.now.limits.lo axis.now.previous axis.now.limits.hi) }
{
    if axis.driven { lies_within(axis) } else { true }
}

// Whether the drive of an axis is led so.
fn is_steered(axis: &Axis) -> bool
    ensures { IsTrue result ↔ IsSteered axis.now }
{
    came_within(axis) && is_given(axis.controlword)
}

// Whether that of the axis of a number is.
fn is_steered_at(start: &Start, axis: u8) -> bool
    requires { axis < length start.now.axes }
    ensures { IsTrue result ↔ IsSteered (axis_at start.now axis) }
{
    match start.axis(axis) {
        Some(now) => is_steered(now),
        None => false,
    }
}

/// Whether those of all axes are.
pub fn are_steered(config: &Config, start: &Start) -> bool
    requires { IsSized config.now start.now }
    ensures { IsTrue result ↔ AreSteered start.now }
{
    for axis in 0..config.axes().len() {
        if !is_steered_at(start, axis as u8) {
            return false;
        }
    }
    true
}
