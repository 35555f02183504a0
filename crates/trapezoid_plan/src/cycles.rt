// Within how many cycles a move is done.
ghost use Rattle.std.specs.Prelude.{◌≡◌, ◌+◌, ◌*◌, ◌≤◌, pos, unsigned_abs};
ghost use Rattle.command_pool.specs.Rates.{AreRates};
ghost use Rattle.trapezoid_plan.specs.CyclesBound.{cycles_bound_of, cycles_of_sizes};
ghost use Rattle.motion_numbers.specs.Ranges.{IsStep, IsWay};

use command_pool::Rates;
use kin_core::ramp_sum;
use motion_numbers::{MOST_STEP, MOST_WAY};

/// The number of cycles within which a move is done that becomes active with the step `old` at the
/// signed distance `distance` from its target, counted from the cycle after.
pub fn cycles_bound(distance: i64, old: i64, rates: &Rates) -> i64
    requires rates { AreRates rates.now }
    requires distance { IsWay distance }
    requires old { IsStep old }
    ensures value { result ≡ pos (cycles_bound_of distance old rates.now) }
    ensures small { unsigned_abs result ≤ MOST_WAY + 3 * MOST_STEP + 4 }
{
    cycles_of(distance.unsigned_abs(), old.unsigned_abs(), rates) as i64
}

// The same by sizes.
fn cycles_of(way: u64, speed: u64, rates: &Rates) -> u64
    requires rates { AreRates rates.now }
    requires way { way ≤ MOST_WAY }
    requires speed { speed ≤ MOST_STEP }
    ensures value { result ≡ cycles_of_sizes way speed rates.now }
    ensures small { result ≤ MOST_WAY + 3 * MOST_STEP + 4 }
{
    let (v, a, d) = (rates.v as u64, rates.a as u64, rates.d as u64);
    let longest = (way as u128 + ramp_sum(speed, d)).min(MOST_WAY as u128) as u64;
    speed / d + 1 + v.div_ceil(a) + longest.div_ceil(v) + v / d + 3
}
