// The wanted step of a move.
ghost use Rattle.std.specs.Prelude.{◌≡◌, ◌↔◌, IsTrue, ◌+◌, ◌≤◌, ◌<◌, max, min, true, pos, neg_ℤ};
ghost use Rattle.command_pool.specs.Rates.{AreRates};
ghost use Rattle.trapezoid_plan.specs.MoveStep.{IsMoveStep, HasMoveStep, MayFollow, move_step_of, step_ahead_of};
ghost use Rattle.motion_numbers.specs.Ranges.{IsStep, IsWay};
ghost use Rattle.motion_numbers.specs.Run.{reach_of, run_of};

use crate::halts::halt_step;
use command_pool::Rates;
use kin_core::steps_fall_toward_zero;
use motion_numbers::{MOST_STEP, MOST_WAY, ramp_sum, searches_find_the_greatest, ways_to_rest};
use ramp_root::{Counter, reach};
use std::marker::Brand;
use std::sync::ledger::{Blank, Ledger};

/// The wanted step of a move, and whether it may follow the step of the last cycle.
#[derive(Clone, Copy, Debug, PartialEq, Eq)]
pub struct PlannedStep {
    /// The step, in internal units per cycle.
    pub step: i64,
    /// Whether it is one that may follow. Within the limits of its axis such a step is safe.
    pub follows: bool,
}

/// The wanted step of a move, in internal units per cycle: `distance` leads from the setpoint to
/// the target, `old` is the step of the last cycle.
pub fn move_step(distance: i64, old: i64, rates: &Rates) -> i64
    requires rates { AreRates rates.now }
    requires distance { IsWay distance }
    requires old { IsStep old }
    ensures value { result ≡ move_step_of distance old rates.now }
    ensures definition { IsMoveStep distance old rates.now result }
    ensures small { IsStep result }
{
    // laws
    ways_to_rest();
    searches_find_the_greatest();
    steps_fall_toward_zero();
    plan_move(distance, old, rates).step
}

/// The same step, and whether it may follow: exactly where a step of the move may.
pub fn plan_move(distance: i64, old: i64, rates: &Rates) -> PlannedStep
    requires rates { AreRates rates.now }
    requires distance { IsWay distance }
    requires old { IsStep old }
    ensures value { result.step ≡ move_step_of distance old rates.now }
    ensures follows { (result.follows ≡ true) ↔ HasMoveStep rates.now distance old }
    ensures small { IsStep result.step }
{
    plan_move_by::<Brand>(distance, old, rates, Blank::new(1))
}

// The same for any ledger, whose counter nobody reads.
fn plan_move_by<L: Ledger>(distance: i64, old: i64, rates: &Rates, blank: Blank) -> PlannedStep
    requires name { blank.name ≡ L.name }
    requires parts { blank.parts ≡ L.parts }
    requires some { 0 < blank.parts }
    requires rates { AreRates rates.now }
    requires distance { IsWay distance }
    requires old { IsStep old }
    ensures value { result.step ≡ move_step_of distance old rates.now }
    ensures follows { (result.follows ≡ true) ↔ HasMoveStep rates.now distance old }
    ensures small { IsStep result.step }
{
    let mut steps = Counter::<L>::open(blank);
    plan_move_counted(distance, old, rates, &mut steps)
}

/// The wanted step, with its calls of fits counted.
pub fn move_step_counted<L: Ledger>(
    distance: i64,
    old: i64,
    rates: &Rates,
    steps: &mut Counter<L>,
) -> i64
    requires rates { AreRates rates.now }
    requires distance { IsWay distance }
    requires old { IsStep old }
    ensures value { result ≡ move_step_of distance old rates.now }
    ensures small { IsStep result }
    ensures cost { steps.new ≤ steps.old + 128 }
{
    plan_move_counted(distance, old, rates, steps).step
}

// The planned step, with the same counted.
fn plan_move_counted<L: Ledger>(
    distance: i64,
    old: i64,
    rates: &Rates,
    steps: &mut Counter<L>,
) -> PlannedStep
    requires rates { AreRates rates.now }
    requires distance { IsWay distance }
    requires old { IsStep old }
    ensures value { result.step ≡ move_step_of distance old rates.now }
    ensures follows { (result.follows ≡ true) ↔ HasMoveStep rates.now distance old }
    ensures small { IsStep result.step }
    ensures cost { steps.new ≤ steps.old + 128 }
{
    // laws
    ways_to_rest();
    searches_find_the_greatest();
    if 0 < distance && 0 <= old {
        step_ahead(distance.unsigned_abs(), old.unsigned_abs(), rates, steps)
    } else if distance < 0 && old <= 0 {
        turned(step_ahead(distance.unsigned_abs(), old.unsigned_abs(), rates, steps))
    } else {
        PlannedStep {
            step: halt_step(old, rates.d),
            follows: false,
        }
    }
}

// The same step the other way.
fn turned(planned: PlannedStep) -> PlannedStep
    requires { IsStep planned.step }
    ensures step { result.step ≡ neg_ℤ planned.step }
    ensures follows { result.follows ≡ planned.follows }
{
    PlannedStep {
        step: -planned.step,
        ..planned
    }
}

// The step toward a target ahead. While the axis speeds up or cruises the first test decides, and
// while it brakes onto the target the second.
fn step_ahead<L: Ledger>(way: u64, speed: u64, rates: &Rates, steps: &mut Counter<L>) -> PlannedStep
    requires rates { AreRates rates.now }
    requires speed { speed ≤ MOST_STEP }
    requires way { way ≤ MOST_WAY }
    ensures value { result.step ≡ pos (step_ahead_of way speed rates.now) }
    ensures follows { (result.follows ≡ true) ↔
        MayFollow rates.now (pos way) (pos speed) result.step }
    ensures small { IsStep result.step }
    ensures cost { steps.new ≤ steps.old + 64 }
{
    // laws
    ways_to_rest();
    searches_find_the_greatest();
    let d = rates.d as u64;
    let fastest = (rates.v as u64).min(speed + rates.a as u64);
    let slowest = speed.saturating_sub(d);
    if surely_fits(fastest, d, way) {
        PlannedStep {
            step: fastest.max(slowest) as i64,
            follows: slowest <= fastest,
        }
    } else if ramp_sum(slowest + 1, d) > way as u128 {
        PlannedStep {
            step: slowest as i64,
            follows: comes_to_rest(slowest, fastest, d, way),
        }
    } else {
        PlannedStep {
            step: step_between(fastest, slowest, way, d, steps) as i64,
            follows: slowest <= fastest,
        }
    }
}

// Whether the slowest step is none above the fastest, and comes to rest within the way.
fn comes_to_rest(slowest: u64, fastest: u64, d: u64, way: u64) -> bool
    requires step { slowest ≤ MOST_STEP }
    requires fall { 1 ≤ d }
    requires most_fall { d ≤ MOST_STEP }
    ensures { IsTrue result ↔ ((slowest ≤ fastest) × (run_of slowest d ≤ way)) }
{
    slowest <= fastest && ramp_sum(slowest, d) <= way as u128
}

// The step where the way allows neither the fastest one nor only the slowest: by a root. Out of
// line it leaves the other cycles short.
#[inline(never)]
fn step_between<L: Ledger>(
    fastest: u64,
    slowest: u64,
    way: u64,
    d: u64,
    steps: &mut Counter<L>,
) -> u64
    requires fall { 1 ≤ d }
    requires most_fall { d ≤ MOST_STEP }
    requires way { way ≤ MOST_WAY }
    ensures value { result ≡ max (min fastest (reach_of way d)) slowest }
    ensures cost { steps.new ≤ steps.old + 64 }
{
    fastest.min(reach(way, d, steps)).max(slowest)
}

// Whether the way to rest surely fits, found without a division: twice the fall times that way is
// at most the square of the step and the fall together.
fn surely_fits(step: u64, d: u64, way: u64) -> bool
    requires step { step ≤ MOST_STEP }
    requires fall { 1 ≤ d }
    requires most_fall { d ≤ MOST_STEP }
    ensures { IsTrue result → run_of step d ≤ way }
{
    let whole = (step + d) as u128;
    whole * whole <= (2 * d) as u128 * way as u128
}
