// Steps.

ghost use Rattle.std.specs.Prelude.{◌≡◌, ◌≢◌, ◌↔◌, ◌+◌, ◌*◌, ◌<◌, ◌≤◌, ℤ, ◌+ℤ◌, ◌-ℤ◌, unsigned_abs};
ghost use Rattle.motion_numbers.specs.Ranges.{IsPlace, IsStep, IsWay};
ghost use Rattle.otg.specs.Open.{IsOpen, IsStepOf, IsStepTaken, IsWantedStep, shifted_of};

use crate::generator::{Otg, limits, own_rates, setpoints};
use crate::opening::{INVALID, OK, is_open_counted};
use crate::own::{steps_down, steps_up};
use jerk_core::{Counter, nearest_safe_counted};
use jerk_plan::{halt_step, move_step_counted, velocity_step};
use motion_numbers::{MOST_STEP, MOST_WAY};
use std::marker::Brand;
use std::sync::ledger::{Blank, Ledger};

/// Goes through a cycle: the next setpoint is in `current`.
#[unsafe(no_mangle)]
pub extern "C" fn otg_step(otg: &mut Otg) -> u32
    ensures code { (result ≡ 0) ↔ IsOpen otg.old }
    ensures opened { result ≡ 0 → IsOpen otg.new }
    ensures step { result ≡ 0 → IsStepOf otg.old otg.new }
    ensures codes { result ≤ 1 }
    ensures same { result ≢ 0 → otg.new ≡ otg.old }
{
    step_by::<Brand>(otg, Blank::new(1))
}

// The same for any ledger, whose counter nobody reads.
fn step_by<L: Ledger>(otg: &mut Otg, blank: Blank) -> u32
    requires name { blank.name ≡ L.name }
    requires parts { blank.parts ≡ L.parts }
    requires some { 0 < blank.parts }
    ensures code { (result ≡ 0) ↔ IsOpen otg.old }
    ensures opened { result ≡ 0 → IsOpen otg.new }
    ensures step { result ≡ 0 → IsStepOf otg.old otg.new }
    ensures codes { result ≤ 1 }
    ensures same { result ≢ 0 → otg.new ≡ otg.old }
{
    let mut looks = Counter::<L>::open(blank);
    step_counted(otg, &mut looks)
}

/// The same, with its looks at the way to rest counted.
pub fn step_counted<L: Ledger>(otg: &mut Otg, looks: &mut Counter<L>) -> u32
    ensures code { (result ≡ 0) ↔ IsOpen otg.old }
    ensures opened { result ≡ 0 → IsOpen otg.new }
    ensures step { result ≡ 0 → IsStepOf otg.old otg.new }
    ensures codes { result ≤ 1 }
    ensures same { result ≢ 0 → otg.new ≡ otg.old }
    ensures cost { looks.new ≤ looks.old + 300 }
{
    if steps_up(otg, looks) {
        return OK;
    }
    if steps_down(otg, looks) {
        return OK;
    }
    step_by_any(otg, looks)
}

// The same, for any motion and command.
fn step_by_any<L: Ledger>(otg: &mut Otg, looks: &mut Counter<L>) -> u32
    ensures code { (result ≡ 0) ↔ IsOpen otg.old }
    ensures opened { result ≡ 0 → IsOpen otg.new }
    ensures step { result ≡ 0 → IsStepOf otg.old otg.new }
    ensures codes { result ≤ 1 }
    ensures same { result ≢ 0 → otg.new ≡ otg.old }
    ensures cost { looks.new ≤ looks.old + 150 }
{
    if !is_open_counted(otg, looks) {
        return INVALID;
    }
    let setpoint = next_setpoint(otg, looks);
    let next = shifted(otg, setpoint);
    *otg = next;
    OK
}

// The generator one setpoint on.
pub(crate) fn shifted(otg: &Otg, next: i64) -> Otg
    ensures { result ≡ shifted_of otg.now next }
{
    Otg {
        first: otg.before,
        before: otg.current,
        current: next,
        ..*otg
    }
}

// The next setpoint.
fn next_setpoint<L: Ledger>(otg: &Otg, looks: &mut Counter<L>) -> i64
    requires opened { IsOpen otg.now }
    ensures taken { IsStepTaken otg.now (result -ℤ otg.now.current) }
    ensures cost { looks.new ≤ looks.old + 149 }
{
    moved(otg.current, taken_step(otg, looks))
}

// The step that is nearest to the command's among the safe ones.
fn taken_step<L: Ledger>(otg: &Otg, looks: &mut Counter<L>) -> i64
    requires opened { IsOpen otg.now }
    ensures taken { IsStepTaken otg.now result }
    ensures small { IsStep result }
    ensures cost { looks.new ≤ looks.old + 149 }
{
    let wanted = wanted_step(otg, looks);
    nearest_safe_counted(&limits(otg), &setpoints(otg), wanted, looks)
}

// The setpoint a step further.
fn moved(setpoint: i64, step: i64) -> i64
    requires setpoint { IsPlace setpoint }
    requires step { IsStep step }
    ensures { result ≡ (setpoint +ℤ step) }
{
    setpoint + step
}

// The step that the command wants.
fn wanted_step<L: Ledger>(otg: &Otg, looks: &mut Counter<L>) -> i64
    requires opened { IsOpen otg.now }
    ensures wanted { IsWantedStep otg.now result }
    ensures small { unsigned_abs result ≤ 2 * MOST_WAY }
    ensures cost { looks.new ≤ looks.old + 75 }
{
    let rates = own_rates(otg);
    let last = last_step(otg);
    let speed = this_step(otg);
    if otg.kind == 1 {
        move_step_counted(&rates, distance(otg), last, speed, looks)
    } else if otg.kind == 2 {
        velocity_step(&rates, otg.target, last, speed)
    } else {
        halt_step(&rates, last, speed)
    }
}

// The way from the setpoint to the target.
fn distance(otg: &Otg) -> i64
    requires opened { IsOpen otg.now }
    requires place { IsPlace otg.now.target }
    ensures value { result ≡ (otg.now.target -ℤ otg.now.current) }
    ensures small { IsWay result }
{
    difference(otg.current, otg.target, MOST_WAY)
}

// The step of this cycle.
fn this_step(otg: &Otg) -> i64
    requires opened { IsOpen otg.now }
    ensures value { result ≡ (otg.now.current -ℤ otg.now.before) }
    ensures small { IsStep result }
{
    difference(otg.before, otg.current, MOST_STEP)
}

// The step of the last cycle.
fn last_step(otg: &Otg) -> i64
    requires opened { IsOpen otg.now }
    ensures value { result ≡ (otg.now.before -ℤ otg.now.first) }
    ensures small { unsigned_abs result ≤ 2 * MOST_STEP }
{
    difference(otg.first, otg.before, 2 * MOST_STEP)
}

// How far a setpoint is from another one, where it is at most `most`.
fn difference(from: i64, to: i64, most: u64) -> i64
    requires within { unsigned_abs (to -ℤ from) ≤ most }
    requires most { most ≤ 2 * MOST_WAY }
    ensures value { result ≡ (to -ℤ from) }
    ensures small { unsigned_abs result ≤ most }
{
    to - from
}
