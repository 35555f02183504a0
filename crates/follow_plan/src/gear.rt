// An electronic gear: the step that a master's step asks of the axis that follows it.

ghost use Rattle.std.specs.Prelude.{◌≡◌, ◌^◌, ◌≤◌, pos, neg_ℤ, ◌≤ℤ◌, unsigned_abs};
ghost use Rattle.follow_plan.specs.Gear.{gear_difference_of, gear_toward_of};

use crate::floor::floor_of_product;
use motion_numbers::MOST_RATIO;

/// The step that a gear asks for: the change of `n / d` times the master's setpoint, rounded down
/// at each of the master's setpoints `m0` and then `m1`, so that no rounding adds up over cycles.
/// Setpoints and steps are in internal units; the setpoints may lie anywhere, since a master that
/// is not driven may.
pub fn gear_difference(m0: i64, m1: i64, n: i64, d: i64) -> i128
    requires numerator { unsigned_abs n ≤ MOST_RATIO }
    requires denominator { pos 1 ≤ℤ d }
    ensures value { result ≡ gear_difference_of m0 m1 n d }
    ensures small { unsigned_abs result ≤ 2 ^ 84 }
{
    floor_of_product(n, m1, d) - floor_of_product(n, m0, d)
}

/// The difference of a gear cut to the axis's greatest step `vmax`, in internal units per cycle.
pub fn gear_toward(difference: i128, vmax: i64) -> i64
    requires { pos 0 ≤ℤ vmax }
    ensures value { result ≡ gear_toward_of difference vmax }
    ensures exact { pos (unsigned_abs difference) ≤ℤ vmax → result ≡ difference }
    ensures small { pos (unsigned_abs result) ≤ℤ vmax }
{
    difference.clamp(-(vmax as i128), vmax as i128) as i64
}
