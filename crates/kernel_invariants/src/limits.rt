// Whether limits are in their ranges, and whether setpoints can be stopped within them.

ghost use Rattle.std.specs.Prelude.{◌≡◌, ◌↔◌, IsTrue, pos, ◌≤ℤ◌, ◌-ℤ◌, unsigned_abs};
ghost use Rattle.axis_core.specs.Ranges.{IsBetween};
ghost use Rattle.plc_types.specs.Limits.{AreLimits};
ghost use Rattle.kin_core.specs.Admissible.{IsKept};
ghost use Rattle.motion_numbers.specs.Ranges.{IsPlace};

use kin_core::stoppable;
use motion_numbers::{MOST_PLACE, MOST_STEP, MOST_WAY};
use plc_types::Limits;

// Whether a number lies between two others.
pub fn is_between(least: i64, z: i64, most: i64) -> bool
    ensures { IsTrue result ↔ IsBetween least z most }
{
    least <= z && z <= most
}

// Whether the least place is a place.
fn begins_at_a_place(limits: &Limits) -> bool
    ensures { IsTrue result ↔ IsPlace limits.now.lo }
{
    limits.lo.unsigned_abs() <= MOST_PLACE
}

// Whether the greatest place is not below the least one, and in its range.
fn ends_in_range(limits: &Limits) -> bool
    ensures { IsTrue result ↔ IsBetween limits.now.lo limits.now.hi (pos MOST_WAY) }
{
    is_between(limits.lo, limits.hi, MOST_WAY as i64)
}

// Whether the greatest step is in its range.
fn is_velocity(limits: &Limits) -> bool
    ensures { IsTrue result ↔ IsBetween (pos 1) limits.now.vmax (pos MOST_STEP) }
{
    is_between(1, limits.vmax, MOST_STEP as i64)
}

// Whether the greatest gain of speed is in its range.
fn is_acceleration(limits: &Limits) -> bool
    ensures { IsTrue result ↔ IsBetween (pos 1) limits.now.amax limits.now.dmax }
{
    is_between(1, limits.amax, limits.dmax)
}

// Whether the greatest loss of speed is not too great.
fn is_deceleration(limits: &Limits) -> bool
    ensures { IsTrue result ↔ (limits.now.dmax ≤ℤ pos MOST_STEP) }
{
    limits.dmax <= MOST_STEP as i64
}

// Whether the limits lie in the ranges that an axis or a path may have.
pub fn are_limits(limits: &Limits) -> bool
    ensures { IsTrue result ↔ AreLimits limits.now }
{
    begins_at_a_place(limits)
        && ends_in_range(limits)
        && is_velocity(limits)
        && is_acceleration(limits)
        && is_deceleration(limits)
}

// Whether a setpoint lies within the limits.
pub fn is_within(limits: &Limits, setpoint: i64) -> bool
    ensures { IsTrue result ↔ IsBetween limits.now.lo setpoint limits.now.hi }
{
    is_between(limits.lo, setpoint, limits.hi)
}

// Whether the last step is within vmax.
fn is_slow(limits: &Limits, before: i64, now: i64) -> bool
    requires { AreLimits limits.now }
    ensures { IsTrue result ↔ (pos (unsigned_abs (now -ℤ before)) ≤ℤ limits.now.vmax) }
{
    now.abs_diff(before) <= limits.vmax as u64
}

// Whether two setpoints lie within the limits and can be stopped within them.
pub fn is_kept(limits: &Limits, before: i64, now: i64) -> bool
    requires { AreLimits limits.now }
    ensures { IsTrue result ↔ IsKept limits.now before now }
{
    is_within(limits, now) && is_slow(limits, before, now) && stoppable(limits, before, now)
}

// Whether limits are others.
pub fn are_same(limits: &Limits, others: &Limits) -> bool
    ensures { IsTrue result ↔ (limits.now ≡ others.now) }
{
    *limits == *others
}
