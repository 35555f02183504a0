// The step that an axis takes: the safe step nearest to the wanted one.

ghost use Rattle.std.specs.Prelude.{◌≡◌, IsTrue, ◌≤◌, ◌*◌, ℤ, pos, neg_ℤ, ◌+ℤ◌, ◌-ℤ◌, ◌≤ℤ◌, unsigned_abs};
ghost use Rattle.std.specs.Int.{int_min, int_max};
ghost use Rattle.plc_types.specs.Limits.{AreLimits};
ghost use Rattle.kin_core.specs.Admissible.{IsAdmissible, IsKept, IsSafe, IsTakenStep};
ghost use Rattle.kin_core.specs.Admissible.{least_step_after, greatest_step_after, StepMayFollow};
ghost use Rattle.kin_core.specs.Taken.{reach_up_of, reach_down_of, taken_step_of};
ghost use Rattle.motion_numbers.specs.Ranges.{IsStep};

use motion_numbers::{MOST_WAY, greatest_ramp, is_outside, ways_to_rest};
use plc_types::Limits;

/// The safe step nearest to the `wanted` one, for an axis whose setpoints were `prev` and then
/// `cur`. All are in internal units, and steps are signed; the wanted step is one where it is safe.
pub fn nearest_safe(limits: &Limits, prev: i64, cur: i64, wanted: i64) -> i64
    requires ranges { AreLimits limits.now }
    requires kept { IsKept limits.now prev cur }
    requires wanted_in_range { unsigned_abs wanted ≤ 2 * MOST_WAY }
    ensures value { result ≡ taken_step_of limits.now prev cur wanted }
    ensures taken { IsTakenStep limits.now prev cur wanted result }
    ensures admissible { IsAdmissible limits.now prev cur (cur +ℤ result) }
    ensures kept { IsKept limits.now cur (cur +ℤ result) }
    ensures exact { IsSafe limits.now prev cur (cur +ℤ wanted) → result ≡ wanted }
    ensures small { IsStep result }
{
    // laws
    ways_to_rest();
    let step = step_that_may_follow(limits, cur - prev, wanted);
    step_with_room(limits, cur, step)
}

// The step, cut so that the way to rest after it ends within lo and hi.
fn step_with_room(limits: &Limits, cur: i64, step: i64) -> i64
    requires ranges { AreLimits limits.now }
    requires above { limits.now.lo ≤ℤ cur }
    requires below { cur ≤ℤ limits.now.hi }
    requires step_in_range { IsStep step }
    ensures value { result
        ≡ int_max (neg_ℤ (reach_down_of limits.now cur))
        (int_min (reach_up_of limits.now cur) step) }
    ensures small { IsStep result }
{
    let braking = limits.dmax as u64;
    if step > 0 {
        greatest_ramp((limits.hi - cur) as u64, braking, step as u64) as i64
    } else {
        -(greatest_ramp((cur - limits.lo) as u64, braking, step.unsigned_abs()) as i64)
    }
}

// The wanted step, cut to those that may follow the step `old`, wherever the axis is.
fn step_that_may_follow(limits: &Limits, old: i64, wanted: i64) -> i64
    requires ranges { AreLimits limits.now }
    requires old_in_range { IsStep old }
    ensures value { result
        ≡ int_max (int_max (neg_ℤ limits.now.vmax) (least_step_after limits.now old))
        (int_min (int_min limits.now.vmax (greatest_step_after limits.now old)) wanted) }
    ensures small { IsStep result }
{
    if goes_on(limits, old, wanted) {
        wanted
    } else {
        least_step(limits, old).max(greatest_step(limits, old).min(wanted))
    }
}

// Whether the wanted step goes on in the direction of the step `old` so that nothing is to be cut:
// mostly a command wants such a step.
fn goes_on(limits: &Limits, old: i64, wanted: i64) -> bool
    requires ranges { AreLimits limits.now }
    requires old_in_range { IsStep old }
    ensures { IsTrue result → StepMayFollow limits.now old wanted × (pos (unsigned_abs wanted) ≤ℤ limits.now.vmax) }
{
    if 0 <= old {
        !is_outside(0, wanted, limits.vmax)
            && !is_outside(old - limits.dmax, wanted, old + limits.amax)
    } else {
        !is_outside(-limits.vmax, wanted, 0)
            && !is_outside(old - limits.amax, wanted, old + limits.dmax)
    }
}

// The greatest step that may follow the step `old`.
fn greatest_step(limits: &Limits, old: i64) -> i64
    requires ranges { AreLimits limits.now }
    requires old_in_range { IsStep old }
    ensures value { result ≡ int_min limits.now.vmax (greatest_step_after limits.now old) }
    ensures small { IsStep result }
{
    let by_braking = old + limits.dmax;
    let by_speeding_up = (old + limits.amax).max(0);
    limits.vmax.min(by_braking.min(by_speeding_up))
}

// The least step that may follow the step `old`.
fn least_step(limits: &Limits, old: i64) -> i64
    requires ranges { AreLimits limits.now }
    requires old_in_range { IsStep old }
    ensures value { result ≡ int_max (neg_ℤ limits.now.vmax) (least_step_after limits.now old) }
    ensures small { IsStep result }
{
    let by_braking = old - limits.dmax;
    let by_speeding_up = (old - limits.amax).min(0);
    (-limits.vmax).max(by_braking.max(by_speeding_up))
}
