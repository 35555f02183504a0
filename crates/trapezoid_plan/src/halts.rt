// The wanted step of a halt.
ghost use Rattle.std.specs.Prelude.{◌≡◌, pos, ◌≤ℤ◌, ◌≤◌, unsigned_abs};
ghost use Rattle.kin_core.specs.Toward.{toward_zero};
ghost use Rattle.motion_numbers.specs.Ranges.{IsStep};

use motion_numbers::MOST_STEP;

/// The wanted step of Halt and Stop, in internal units per cycle: the old step, slowed by `d`.
#[tactic(auto, unfolding(kin_core::specs::Toward::toward_zero))]
pub fn halt_step(old: i64, d: i64) -> i64
    requires old { IsStep old }
    requires least { pos 1 ≤ℤ d }
    requires most { d ≤ℤ pos MOST_STEP }
    ensures value { result ≡ toward_zero old d }
    ensures small { unsigned_abs result ≤ unsigned_abs old }
{
    if d < old {
        old - d
    } else if old < -d {
        old + d
    } else {
        0
    }
}
