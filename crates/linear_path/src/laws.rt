// Laws of paths, for all paths and limits: the clauses say them, and nothing runs.

ghost use Rattle.std.specs.Prelude.{◌≡◌, ℕ, ◌<◌, ℤ, pos, ◌≤ℤ◌, List};
ghost use Rattle.plc_types.specs.declared.limits.Limits.{Limits};
ghost use Rattle.kin_core.specs.Admissible.{IsAdmissible, IsSafe, IsKept};
ghost use Rattle.linear_path.specs.Path.{limits_at, AreAxesLimits, AreWithin};

use crate::path::Path;

/// Along any path each axis stays stoppable: where the path's pair of places is kept within the
/// path's limits, so is each axis's pair of setpoints within its own, and where the path's next
/// place is safe, so is each axis's next setpoint.
pub fn steps_along_a_path_are_safe<P: Path>()
    ensures kept { (path : P) (limits : List Limits) (axis : ℕ) (before now : ℤ) →
        AreAxesLimits (P.count_of path) limits → axis < P.count_of path →
        AreWithin (limits_at limits axis) (P.start_of path axis) (P.target_of path axis) →
        pos 0 ≤ℤ before → before ≤ℤ P.length_of path →
        IsKept (P.limits_of path limits) before now →
        IsKept (limits_at limits axis) (P.place_of path axis before) (P.place_of path axis now) }
    ensures safe { (path : P) (limits : List Limits) (axis : ℕ) (before now next : ℤ) →
        AreAxesLimits (P.count_of path) limits → axis < P.count_of path →
        AreWithin (limits_at limits axis) (P.start_of path axis) (P.target_of path axis) →
        pos 0 ≤ℤ before → before ≤ℤ P.length_of path → pos 0 ≤ℤ now → now ≤ℤ P.length_of path →
        IsSafe (P.limits_of path limits) before now next →
        IsSafe (limits_at limits axis) (P.place_of path axis before) (P.place_of path axis now)
        (P.place_of path axis next) }
{
    P::leads_its_axes();
}
