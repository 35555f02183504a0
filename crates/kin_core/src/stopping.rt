// Whether an axis can still be stopped within its limits.

ghost use Rattle.std.specs.Prelude.{◌≡◌, ◌-◌, ◌≤◌, ◌↔◌, IsTrue, pos, ◌-ℤ◌, ◌≤ℤ◌, unsigned_abs};
ghost use Rattle.plc_types.specs.Limits.{AreLimits};
ghost use Rattle.kin_core.specs.Admissible.{IsStoppable};
ghost use Rattle.motion_numbers.specs.Run.{run_of};

use motion_numbers::{MOST_STEP, ramp_sum, ways_to_rest};
use plc_types::Limits;

/// Whether an axis whose setpoints were `prev` and then `cur` can be brought to rest within its
/// limits: there is a finite list of setpoints that goes on admissibly and ends with the same one
/// twice. Places and steps are in internal units.
pub fn stoppable(limits: &Limits, prev: i64, cur: i64) -> bool
    requires ranges { AreLimits limits.now }
    requires above { limits.now.lo ≤ℤ cur }
    requires below { cur ≤ℤ limits.now.hi }
    requires speed { pos (unsigned_abs (cur -ℤ prev)) ≤ℤ limits.now.vmax }
    ensures value { IsTrue result ↔ IsStoppable limits.now prev cur }
{
    // laws
    ways_to_rest();
    let braking = limits.dmax as u64;
    if prev <= cur {
        stops_within((cur - prev) as u64, (limits.hi - cur) as u64, braking)
    } else {
        stops_within((prev - cur) as u64, (cur - limits.lo) as u64, braking)
    }
}

// Whether the way to rest after a step of this size, braking by d each cycle, fits the room.
fn stops_within(step: u64, room: u64, d: u64) -> bool
    requires step { step ≤ MOST_STEP }
    requires fall { 1 ≤ d }
    ensures value { IsTrue result ↔ (run_of (step - d) d ≤ room) }
{
    ramp_sum(step.saturating_sub(d), d) <= room as u128
}
