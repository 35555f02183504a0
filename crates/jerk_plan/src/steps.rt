// The wanted steps of commands, in either direction.

ghost use Rattle.std.specs.Prelude.{◌≡◌, ◌↔◌, IsTrue, ℤ, ◌+◌, ◌*◌, ◌<◌, ◌≤◌, pos, neg_ℤ, ◌≤ℤ◌, unsigned_abs};
ghost use Rattle.motion_numbers.specs.Ranges.{IsStep, IsWay};
ghost use Rattle.motion_numbers.specs.Run.{cut_at_zero};
ghost use Rattle.jerk_core.specs.Rates.{AreJerkRates};
ghost use Rattle.jerk_plan.specs.Directed.{HeadsUp, IsMoveStep, IsVelocityStep, IsHaltStep};

use crate::speeds::{halt_speed, move_speed, velocity_speed};
use jerk_core::{Counter, JerkRates};
use motion_numbers::{MOST_STEP, MOST_WAY};
use std::marker::Brand;
use std::sync::ledger::{Blank, Ledger};

/// The wanted step of a move, in internal units per cycle: `distance` leads from the setpoint to
/// the target, `last` and `speed` are the steps of the last cycle and of this one. A move that
/// heads away from its target slows.
pub fn move_step(rates: &JerkRates, distance: i64, last: i64, speed: i64) -> i64
    requires rates { AreJerkRates rates.now }
    requires distance { IsWay distance }
    requires last { unsigned_abs last ≤ 2 * MOST_STEP }
    requires speed { IsStep speed }
    ensures wanted { IsMoveStep rates.now distance last speed result }
    ensures small { unsigned_abs result ≤ 2 * MOST_STEP }
{
    move_step_by::<Brand>(rates, distance, last, speed, Blank::new(1))
}

// The same for any ledger, whose counter nobody reads.
fn move_step_by<L: Ledger>(
    rates: &JerkRates,
    distance: i64,
    last: i64,
    speed: i64,
    blank: Blank,
) -> i64
    requires name { blank.name ≡ L.name }
    requires parts { blank.parts ≡ L.parts }
    requires some { 0 < blank.parts }
    requires rates { AreJerkRates rates.now }
    requires distance { IsWay distance }
    requires last { unsigned_abs last ≤ 2 * MOST_STEP }
    requires speed { IsStep speed }
    ensures wanted { IsMoveStep rates.now distance last speed result }
    ensures small { unsigned_abs result ≤ 2 * MOST_STEP }
{
    let mut looks = Counter::<L>::open(blank);
    move_step_counted(rates, distance, last, speed, &mut looks)
}

/// The same, with its looks at the way to rest counted.
pub fn move_step_counted<L: Ledger>(
    rates: &JerkRates,
    distance: i64,
    last: i64,
    speed: i64,
    looks: &mut Counter<L>,
) -> i64
    requires rates { AreJerkRates rates.now }
    requires distance { IsWay distance }
    requires last { unsigned_abs last ≤ 2 * MOST_STEP }
    requires speed { IsStep speed }
    ensures wanted { IsMoveStep rates.now distance last speed result }
    ensures small { unsigned_abs result ≤ 2 * MOST_STEP }
    ensures cost { looks.new ≤ looks.old + 75 }
{
    if heads_up(distance, speed) {
        signed(move_speed(
            rates,
            distance.unsigned_abs(),
            upward(last),
            speed.unsigned_abs(),
            looks,
        ))
    } else if heads_down(distance, speed) {
        opposite(move_speed(
            rates,
            distance.unsigned_abs(),
            downward(last),
            speed.unsigned_abs(),
            looks,
        ))
    } else {
        halt_step(rates, last, speed)
    }
}

/// The wanted step of a halt.
pub fn halt_step(rates: &JerkRates, last: i64, speed: i64) -> i64
    requires rates { AreJerkRates rates.now }
    requires last { unsigned_abs last ≤ 2 * MOST_STEP }
    requires speed { IsStep speed }
    ensures wanted { IsHaltStep rates.now last speed result }
    ensures small { unsigned_abs result ≤ 2 * MOST_STEP }
{
    if 0 <= speed {
        signed(halt_speed(rates, upward(last), speed.unsigned_abs()))
    } else {
        opposite(halt_speed(rates, downward(last), speed.unsigned_abs()))
    }
}

/// The wanted step of a velocity command toward the velocity `wanted`, in internal units per cycle.
/// Where the axis moves the other way it slows first.
pub fn velocity_step(rates: &JerkRates, wanted: i64, last: i64, speed: i64) -> i64
    requires rates { AreJerkRates rates.now }
    requires wanted { IsStep wanted }
    requires last { unsigned_abs last ≤ 2 * MOST_STEP }
    requires speed { IsStep speed }
    ensures wanted { IsVelocityStep rates.now wanted last speed result }
    ensures small { unsigned_abs result ≤ 2 * MOST_STEP }
{
    if heads_up(wanted, speed) {
        signed(velocity_speed(
            rates,
            wanted.unsigned_abs(),
            upward(last),
            speed.unsigned_abs(),
        ))
    } else if heads_down(wanted, speed) {
        opposite(velocity_speed(
            rates,
            wanted.unsigned_abs(),
            downward(last),
            speed.unsigned_abs(),
        ))
    } else {
        halt_step(rates, last, speed)
    }
}

// Whether neither leads down.
fn heads_up(wanted: i64, speed: i64) -> bool
    ensures { IsTrue result ↔ HeadsUp wanted speed }
{
    0 <= wanted && 0 <= speed
}

// Whether neither leads up.
fn heads_down(wanted: i64, speed: i64) -> bool
    ensures { IsTrue result ↔ ((wanted ≤ℤ pos 0) × (speed ≤ℤ pos 0)) }
{
    wanted <= 0 && speed <= 0
}

// A step's size upward, or 0.
#[tactic(auto, using(motion_numbers::proofs::Runs::cut_is))]
fn upward(step: i64) -> u64
    requires { unsigned_abs step ≤ 2 * MOST_STEP }
    ensures value { result ≡ cut_at_zero step }
    ensures small { result ≤ 2 * MOST_STEP }
{
    if 0 < step { step.unsigned_abs() } else { 0 }
}

// A step's size downward, or 0.
#[tactic(auto, using(motion_numbers::proofs::Runs::cut_is))]
fn downward(step: i64) -> u64
    requires { unsigned_abs step ≤ 2 * MOST_STEP }
    ensures value { result ≡ cut_at_zero (neg_ℤ step) }
    ensures small { result ≤ 2 * MOST_STEP }
{
    if step < 0 { step.unsigned_abs() } else { 0 }
}

// A speed upward as a step.
fn signed(speed: u64) -> i64
    requires { speed ≤ 2 * MOST_STEP }
    ensures { result ≡ pos speed }
{
    speed as i64
}

// A speed downward as a step.
fn opposite(speed: u64) -> i64
    requires { speed ≤ 2 * MOST_STEP }
    ensures { result ≡ neg_ℤ (pos speed) }
{
    -(speed as i64)
}
