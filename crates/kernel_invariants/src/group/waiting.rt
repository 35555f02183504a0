// Whether a command may wait for a group (PLCopen Motion Control Part 4, BufferMode).

ghost use Rattle.std.specs.Prelude.{◌≡◌, ◌↔◌, IsTrue, ℕ, ◌<◌, ◌≤◌, pos, length};
ghost use Rattle.plc_types.specs.declared.kind.BlockKind.TheVariants as kind;
ghost use Rattle.group_core.specs.GroupKept.{AreTargets, IsWaiting, IsWithin};
ghost use Rattle.group_core.specs.Refusals as refusals;
ghost use Rattle.linear_path.specs.Line.{coordinate_of};
ghost use Rattle.linear_path.specs.Path.{limits_at};

use crate::group::command::are_rates;
use crate::limits::is_within;
use group_core::{BlockKind, BufferMode, Limits, Wanted};

// Whether a target lies within the limits of its axis.
fn is_target(limits: &Limits, target: i64) -> bool
    ensures { IsTrue result ↔ IsWithin limits.now target }
{
    is_within(limits, target)
}

// Whether the targets of the axes with these limits lie within them.
fn are_within(limits: &[Limits], targets: &[i64; 6]) -> bool
    requires { length limits.now ≤ 6 }
    ensures yes { IsTrue result → (axis : ℕ) → axis < length limits.now →
        IsWithin (limits_at limits.now axis) (coordinate_of targets.now axis) }
    ensures no { ((axis : ℕ) → axis < length limits.now →
        IsWithin (limits_at limits.now axis) (coordinate_of targets.now axis)) → IsTrue result }
{
    for axis in 0..limits.len() {
        if !is_target(&limits[axis], targets[axis]) {
            return false;
        }
    }
    true
}

// Whether the targets from a number of axes on are 0.
fn are_unset(axes: u8, targets: &[i64; 6]) -> bool
    requires { axes ≤ 6 }
    ensures yes { IsTrue result → (axis : ℕ) → axes ≤ axis →
        coordinate_of targets.now axis ≡ pos 0 }
    ensures no { ((axis : ℕ) → axes ≤ axis → coordinate_of targets.now axis ≡ pos 0) →
        IsTrue result }
{
    for axis in axes as usize..6 {
        if targets[axis] != 0 {
            return false;
        }
    }
    true
}

// Whether each axis has a target within its limits, and those after are 0.
fn are_targets(limits: &[Limits], targets: &[i64; 6]) -> bool
    requires { length limits.now ≤ 6 }
    ensures { IsTrue result ↔ AreTargets (length limits.now) limits.now targets.now }
{
    are_within(limits, targets) && are_unset(limits.len() as u8, targets)
}

// Whether a command is a line.
fn is_line(wanted: &Wanted) -> bool
    ensures { IsTrue result ↔ (wanted.now.kind ≡ kind.MoveLinearAbsolute) }
{
    matches!(wanted.kind, BlockKind::MoveLinearAbsolute)
}

// Whether a mode is a blending one.
fn is_blending(mode: BufferMode) -> bool
    ensures { result ≡ refusals.is_blending mode }
{
    !matches!(mode, BufferMode::Aborting | BufferMode::Buffered)
}

// Whether a command may wait for a group whose axes have these limits.
pub fn is_waiting(limits: &[Limits], wanted: &Wanted) -> bool
    requires { length limits.now ≤ 6 }
    ensures { IsTrue result ↔ IsWaiting (length limits.now) limits.now wanted.now }
{
    is_line(wanted)
        && are_rates(&wanted.rates)
        && are_targets(limits, &wanted.targets)
        && !is_blending(wanted.mode)
}
