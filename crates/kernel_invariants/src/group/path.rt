// Whether a group's path is one of its axes, and can be stopped.

ghost use Rattle.std.specs.Prelude.{◌≡◌, ◌↔◌, IsTrue, ℕ, ◌<◌, ◌≤◌, pos, ◌≤ℤ◌, length, Some};
ghost use Rattle.group_core.specs.GroupKept.{AreGroupLimits, IsPathOf};
ghost use Rattle.group_core.specs.Seen.{on_path, way_of};
ghost use Rattle.group_core.specs.Tracks.{OnPath, limits_on};
ghost use Rattle.plc_types.specs.Limits.{AreLimits};
ghost use Rattle.kin_core.specs.Admissible.{IsKept};
ghost use Rattle.linear_path.specs.Line.{coordinate_of};
ghost use Rattle.linear_path.specs.Path.{AreAxesLimits, AreWithin, limits_at};
ghost use Rattle.kernel_invariants.specs.Parts.{track_of};

use crate::limits::{are_same, is_kept, is_within};
use group_core::{GroupOnPath, Limits, LinePath, Motion, Track};
use linear_path::path_limits;

// Whether an axis of a line starts and ends within its limits.
fn goes_within(limits: &Limits, line: &LinePath, axis: usize) -> bool
    requires { axis < 6 }
    ensures { IsTrue result ↔ AreWithin limits.now (coordinate_of line.now.starts axis)
        (coordinate_of line.now.targets axis) }
{
    is_within(limits, line.starts[axis]) && is_within(limits, line.targets[axis])
}

// Whether a line starts and ends within the limits of its axes.
fn lies_within(limits: &[Limits], line: &LinePath) -> bool
    requires { length limits.now ≡ line.now.count }
    ensures yes { IsTrue result → (axis : ℕ) → axis < length limits.now →
        AreWithin (limits_at limits.now axis) (coordinate_of line.now.starts axis)
        (coordinate_of line.now.targets axis) }
    ensures no { ((axis : ℕ) → axis < length limits.now →
        AreWithin (limits_at limits.now axis) (coordinate_of line.now.starts axis)
        (coordinate_of line.now.targets axis)) → IsTrue result }
{
    for axis in 0..limits.len() {
        if !goes_within(&limits[axis], line, axis) {
            return false;
        }
    }
    true
}

// Whether a path has the limits that its line has.
fn has_limits(limits: &[Limits], track: &Track<LinePath>) -> bool
    requires { AreAxesLimits track.now.path.count limits.now }
    ensures value { IsTrue result ↔
        (track.now.motion.limits ≡ limits_on (way_of track.now.path) limits.now) }
    ensures in_range { IsTrue result → AreLimits track.now.motion.limits }
{
    are_same(&track.motion.limits, &path_limits(&track.path, limits))
}

// Whether the place before the current one lies on the path.
fn comes_from_path(motion: &Motion) -> bool
    ensures { IsTrue result ↔
        ((pos 0 ≤ℤ motion.now.previous) × (motion.now.previous ≤ℤ motion.now.limits.hi)) }
{
    0 <= motion.previous && motion.previous <= motion.limits.hi
}

// Whether the places on a path can be stopped within its limits.
fn is_motion_kept(motion: &Motion) -> bool
    requires { AreLimits motion.now.limits }
    ensures { IsTrue result ↔
        IsKept motion.now.limits motion.now.previous motion.now.place }
{
    is_kept(&motion.limits, motion.previous, motion.place)
}

// Whether a path is one of as many axes as there are limits.
fn has_axes(limits: &[Limits], line: &LinePath) -> bool
    requires { length limits.now ≤ 6 }
    ensures { IsTrue result ↔ (line.now.count ≡ length limits.now) }
{
    line.count as usize == limits.len()
}

// Whether a path is one of the axes with these limits, within them, and can be stopped.
fn is_path_of(limits: &[Limits], track: &Track<LinePath>) -> bool
    requires few { length limits.now ≤ 6 }
    requires ranges { AreGroupLimits (length limits.now) limits.now }
    ensures { IsTrue result ↔ IsPathOf (length limits.now) limits.now (track_of track.now) }
{
    has_axes(limits, &track.path)
        && lies_within(limits, &track.path)
        && has_limits(limits, track)
        && comes_from_path(&track.motion)
        && is_motion_kept(&track.motion)
}

// Whether the path of a group, if it is on one, is one of the axes with these limits.
pub fn has_path(limits: &[Limits], on: &GroupOnPath<LinePath>) -> bool
    requires few { length limits.now ≤ 6 }
    requires ranges { AreGroupLimits (length limits.now) limits.now }
    ensures { IsTrue result ↔ ((p : OnPath) → on_path on.now.track ≡ Some p →
        IsPathOf (length limits.now) limits.now p) }
{
    match &on.track {
        Some(track) => is_path_of(limits, track),
        None => true,
    }
}
