// The wanted step of a velocity command.
ghost use Rattle.std.specs.Prelude.{◌≡◌, ◌-◌, ◌+◌, ◌<◌, pos, ◌≤ℤ◌, ◌≤◌, unsigned_abs, min, max, nat_lt, if◌then◌else◌};
ghost use Rattle.command_pool.specs.Rates.{AreRamps};
ghost use Rattle.trapezoid_plan.specs.VelocityStep.{velocity_step_of};
ghost use Rattle.motion_numbers.specs.Ranges.{IsStep};

use crate::halts::halt_step;
use command_pool::Rates;
use kin_core::steps_fall_toward_zero;
use motion_numbers::MOST_STEP;

/// The wanted step toward the constant step `toward`, in internal units per cycle; `old` is the
/// step of the last cycle. The rates' velocity isn't looked at.
pub fn velocity_step(toward: i64, old: i64, rates: &Rates) -> i64
    requires rates { AreRamps rates.now }
    requires toward { IsStep toward }
    requires old { IsStep old }
    ensures value { result ≡ velocity_step_of toward old rates.now }
    ensures small { IsStep result }
{
    // laws
    steps_fall_toward_zero();
    if 0 <= toward && 0 <= old {
        speed_after(toward.unsigned_abs(), old.unsigned_abs(), rates) as i64
    } else if toward <= 0 && old <= 0 {
        -(speed_after(toward.unsigned_abs(), old.unsigned_abs(), rates) as i64)
    } else {
        halt_step(old, rates.d)
    }
}

// The size of the step where the old one doesn't lead the other way.
fn speed_after(toward: u64, old: u64, rates: &Rates) -> u64
    requires rates { AreRamps rates.now }
    requires toward { toward ≤ MOST_STEP }
    requires old { old ≤ MOST_STEP }
    ensures faster { old < toward → result ≡ min (old + unsigned_abs rates.now.a) toward }
    ensures slower { toward ≤ old → result ≡ max (old - unsigned_abs rates.now.d) toward }
    ensures small { result ≤ MOST_STEP }
{
    if old < toward {
        toward.min(old + rates.a as u64)
    } else {
        toward.max(old.saturating_sub(rates.d as u64))
    }
}
