// Steps of moves that keep their own rates in the way to their target: what they keep, the limits
// keep, so that their step is safe and nothing else is to be looked at.

ghost use Rattle.std.specs.Prelude.{◌≡◌, ◌↔◌, IsTrue, ℕ, ◌+◌, ◌*◌, ◌≤◌, Some, pos, false, ◌≤ℤ◌, ◌+ℤ◌, ◌-ℤ◌, unsigned_abs};
ghost use Rattle.motion_numbers.specs.Ranges.{IsPlace};
ghost use Rattle.jerk_core.specs.Admissible.{rates_of};
ghost use Rattle.jerk_core.specs.Rates.{AreJerkRates, AreRatesWithin};
ghost use Rattle.jerk_plan.specs.Wanted.{IsMoveOf};
ghost use Rattle.otg.specs.Open.{IsOpen, IsStepOf, limits_of, rates_of_command, shifted_of};
ghost use Rattle.otg.specs.Own.{Rises, Falls, HasTargetAbove, HasTargetBelow, IsOwnMove};

use crate::generator::{Otg, own_rates};
use crate::opening::{are_limits, is_command};
use crate::stepping::shifted;
use jerk_core::Counter;
use jerk_plan::own_speed;
use std::sync::ledger::Ledger;

/// Goes a step up by the move's own rates, where they keep the motion. Else nothing changes.
pub(crate) fn steps_up<L: Ledger>(otg: &mut Otg, looks: &mut Counter<L>) -> bool
    ensures opened { IsTrue result → IsOpen otg.old × IsOpen otg.new }
    ensures step { IsTrue result → IsStepOf otg.old otg.new }
    ensures same { result ≡ false → otg.new ≡ otg.old }
    ensures cost { looks.new ≤ looks.old + 75 }
{
    if !rises(otg) {
        return false;
    }
    if !has_target_above(otg) {
        return false;
    }
    if !is_own_move(otg) {
        return false;
    }
    let Some(speed) = speed_of_move(otg, looks) else {
        return false;
    };
    let next = shifted(otg, above(otg.current, speed));
    *otg = next;
    true
}

/// Goes a step down by the move's own rates, where they keep the motion. Else nothing changes.
pub(crate) fn steps_down<L: Ledger>(otg: &mut Otg, looks: &mut Counter<L>) -> bool
    ensures opened { IsTrue result → IsOpen otg.old × IsOpen otg.new }
    ensures step { IsTrue result → IsStepOf otg.old otg.new }
    ensures same { result ≡ false → otg.new ≡ otg.old }
    ensures cost { looks.new ≤ looks.old + 75 }
{
    if !falls(otg) {
        return false;
    }
    if !has_target_below(otg) {
        return false;
    }
    if !is_own_move(otg) {
        return false;
    }
    let Some(speed) = speed_of_move(otg, looks) else {
        return false;
    };
    let next = shifted(otg, below(otg.current, speed));
    *otg = next;
    true
}

// Whether the setpoints rise.
fn rises(otg: &Otg) -> bool
    ensures { IsTrue result ↔ Rises otg.now }
{
    otg.first <= otg.before && otg.before <= otg.current
}

// Whether the target is no lower than the setpoint, and both lie within the limits.
fn has_target_above(otg: &Otg) -> bool
    ensures { IsTrue result ↔ HasTargetAbove otg.now }
{
    otg.current <= otg.target && otg.target <= otg.hi && otg.lo <= otg.current
}

// Whether the setpoints fall, and are not all the same.
fn falls(otg: &Otg) -> bool
    ensures { IsTrue result ↔ Falls otg.now }
{
    otg.before <= otg.first && otg.current <= otg.before && otg.current < otg.first
}

// Whether the target is no higher than the setpoint and lower than the one before, and both lie
// within the limits.
fn has_target_below(otg: &Otg) -> bool
    ensures { IsTrue result ↔ HasTargetBelow otg.now }
{
    otg.target <= otg.current && otg.target < otg.before && is_between(otg)
}

// Whether the target is no lower than lo, and the setpoint no higher than hi.
fn is_between(otg: &Otg) -> bool
    ensures { IsTrue result ↔ ((otg.now.lo ≤ℤ otg.now.target) × (otg.now.current ≤ℤ otg.now.hi)) }
{
    otg.lo <= otg.target && otg.current <= otg.hi
}

// Whether limits and command are in their ranges, and the command is a move by rates within the
// limits.
fn is_own_move(otg: &Otg) -> bool
    ensures { IsTrue result ↔ IsOwnMove otg.now }
{
    otg.kind == 1 && are_limits(otg) && is_command(otg) && are_rates_within(otg)
}

// Whether the rates of the command are within the limits.
fn are_rates_within(otg: &Otg) -> bool
    ensures { IsTrue result ↔ AreRatesWithin (rates_of_command otg.now) (rates_of (limits_of otg.now)) }
{
    otg.v <= otg.vmax.unsigned_abs()
        && otg.a <= otg.amax.unsigned_abs()
        && otg.d <= otg.dmax.unsigned_abs()
        && otg.j <= otg.jmax.unsigned_abs()
}

// The speed of the move, where its own rates keep the motion.
fn speed_of_move<L: Ledger>(otg: &Otg, looks: &mut Counter<L>) -> Option<u64>
    requires own { IsOwnMove otg.now }
    ensures found { (x : ℕ) → result ≡ Some x → IsMoveOf (rates_of_command otg.now) (unsigned_abs (otg.now.target -ℤ otg.now.current))
        (unsigned_abs (otg.now.before -ℤ otg.now.first)) (unsigned_abs (otg.now.current -ℤ otg.now.before)) x }
    ensures cost { looks.new ≤ looks.old + 75 }
{
    own_speed(
        &own_rates(otg),
        otg.target.abs_diff(otg.current),
        otg.before.abs_diff(otg.first),
        otg.current.abs_diff(otg.before),
        looks,
    )
}

// The setpoint a speed above another.
fn above(setpoint: i64, speed: u64) -> i64
    requires setpoint { IsPlace setpoint }
    requires speed { speed ≤ 10000000000 }
    ensures { result ≡ (setpoint +ℤ pos speed) }
{
    setpoint + speed as i64
}

// The setpoint a speed below another.
fn below(setpoint: i64, speed: u64) -> i64
    requires setpoint { IsPlace setpoint }
    requires speed { speed ≤ 10000000000 }
    ensures { result ≡ (setpoint -ℤ pos speed) }
{
    setpoint - speed as i64
}
