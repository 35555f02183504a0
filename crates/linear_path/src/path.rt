// What a path is: a way that several axes go together, place by place.

ghost use Rattle.std.specs.Prelude.{◌≡◌, ℕ, ◌<◌, ◌≤◌, ℤ, pos, ◌-ℤ◌, ◌≤ℤ◌, unsigned_abs, List};
ghost use Rattle.motion_numbers.specs.Ranges.{IsPlace};

use motion_numbers::MOST_WAY;

/// A way that several axes go together: at each place 0 to `length()` every axis has one setpoint.
/// All are in internal units, and the axes are counted from 0.
pub trait Path {
    ghost use Rattle.plc_types.specs.declared.limits.Limits.{Limits};
    ghost use Rattle.plc_types.specs.Limits.{AreLimits};
    ghost use Rattle.kin_core.specs.Admissible.{IsAdmissible};
    ghost use Rattle.linear_path.specs.Path.{limits_at, AreAxesLimits, AreWithin, IsBetween};

    ghost length_of: { Self → ℤ };

    ghost count_of: { Self → ℕ };

    ghost start_of: { Self → ℕ → ℤ };

    ghost target_of: { Self → ℕ → ℤ };

    ghost place_of: { Self → ℕ → ℤ → ℤ };

    ghost limits_of: { Self → List Limits → Limits };

    /// The last place, from 0 to 2 * 10^15.
    fn length(&self) -> i64
        ensures value { result ≡ length_of self.now }
        ensures not_negative { pos 0 ≤ℤ result }
        ensures in_range { result ≤ℤ pos MOST_WAY };

    /// How many axes go along the path.
    fn axes(&self) -> u8
        ensures { result ≡ count_of self.now };

    /// The setpoint of an axis at place `s`.
    fn place(&self, axis: u8, s: i64) -> i64
        requires axis { axis < count_of self.now }
        requires from_the_start { pos 0 ≤ℤ s }
        requires to_the_target { s ≤ℤ length_of self.now }
        ensures value { result ≡ place_of self.now axis s }
        ensures small { IsPlace result };

    /// What a way leads its axes by, for all ways of the kind: the clauses say it, and nothing
    /// runs. Place 0 is the start, the last place the target, and every other lies between them.
    /// The path's limits are limits, and reach from place 0 to the last one; a step within its vmax
    /// moves each axis within its own, and two steps that meet its limits move each axis by a step
    /// and a change of step within its own.
    fn leads_its_axes()
        ensures begins_at_the_start { (path : Self) (axis : ℕ) → axis < count_of path →
            place_of path axis (pos 0) ≡ start_of path axis }
        ensures ends_at_the_target { (path : Self) (axis : ℕ) → axis < count_of path →
            place_of path axis (length_of path) ≡ target_of path axis }
        ensures stays_between { (path : Self) (axis : ℕ) (s : ℤ) → axis < count_of path →
            pos 0 ≤ℤ s → s ≤ℤ length_of path →
            IsBetween (start_of path axis) (target_of path axis) (place_of path axis s) }
        ensures limits_in_range { (path : Self) (limits : List Limits) →
            AreAxesLimits (count_of path) limits → AreLimits (limits_of path limits) }
        ensures limits_from { (path : Self) (limits : List Limits) →
            (limits_of path limits).lo ≡ pos 0 }
        ensures limits_to { (path : Self) (limits : List Limits) →
            (limits_of path limits).hi ≡ length_of path }
        ensures keeps_the_axes_speed { (path : Self) (limits : List Limits) (axis : ℕ)
            (before now : ℤ) → AreAxesLimits (count_of path) limits → axis < count_of path →
            pos 0 ≤ℤ before → before ≤ℤ length_of path → pos 0 ≤ℤ now → now ≤ℤ length_of path →
            pos (unsigned_abs (now -ℤ before)) ≤ℤ (limits_of path limits).vmax →
            pos (unsigned_abs (place_of path axis now -ℤ place_of path axis before))
            ≤ℤ (limits_at limits axis).vmax }
        ensures keeps_the_axes_limits { (path : Self) (limits : List Limits) (axis : ℕ)
            (before now next : ℤ) → AreAxesLimits (count_of path) limits → axis < count_of path →
            AreWithin (limits_at limits axis) (start_of path axis) (target_of path axis) →
            pos 0 ≤ℤ before → before ≤ℤ length_of path → pos 0 ≤ℤ now → now ≤ℤ length_of path →
            IsAdmissible (limits_of path limits) before now next →
            IsAdmissible (limits_at limits axis) (place_of path axis before)
            (place_of path axis now) (place_of path axis next) };
}
