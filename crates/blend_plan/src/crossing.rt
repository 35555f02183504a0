// Where a taken step crosses the first target.
ghost use Rattle.std.specs.Prelude.{◌≡◌, ◌≤◌, ◌↔◌, IsTrue, pos, ◌≤ℤ◌, unsigned_abs};
ghost use Rattle.command_pool.specs.Rates.{AreRates};
ghost use Rattle.blend_plan.specs.BlendStep.{Crosses, crosses_at};
ghost use Rattle.motion_numbers.specs.Ranges.{IsStep};

use command_pool::Rates;
use kin_core::run_sum;

/// Whether a taken step crosses the first target, which lies at the distance `l1`, and the second
/// at `l2`, before the step; `vb` is the blend velocity, and all are counted in the direction from
/// the first target to the second, in internal units. The first move is then done, and the second
/// one active.
pub fn crosses(l1: i64, l2: i64, step: i64, second: &Rates, vb: i64) -> bool
    requires rates { AreRates second.now }
    requires step { IsStep step }
    requires first { pos 0 ≤ℤ l1 }
    ensures value { result ≡ crosses_at l1 l2 second.now vb step }
    ensures definition { IsTrue result ↔ Crosses l1 l2 second.now vb step }
{
    step <= vb && l1 <= step && run_sum(step, second.d) <= l2 as i128
}
