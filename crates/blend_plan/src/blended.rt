// The wanted step of a move that is blended into the next one.
ghost use Rattle.std.specs.Prelude.{◌≡◌, ◌+◌, ◌↔◌, IsTrue, pos, ◌≤ℤ◌, ◌<ℤ◌, ◌≤◌, ◌<◌};
ghost use Rattle.command_pool.specs.Rates.{AreRates};
ghost use Rattle.blend_plan.specs.BlendStep.{IsBlendStep, Crosses, blend_step_of};

use crate::crossing::crosses;
use crate::sizes::step_size;
use command_pool::Rates;
use kin_core::steps_fall_toward_zero;
use motion_numbers::{MOST_STEP, MOST_WAY, searches_find_the_greatest};
use ramp_root::Counter;
use std::marker::Brand;
use std::sync::ledger::{Blank, Ledger};

/// The wanted step of a move that is blended into the next one, in internal units per cycle, and
/// whether that step crosses the first target. The targets lie at the distances `l1` and `l2`,
/// `old` is the step of the last cycle and `vb` the blend velocity, all counted in the direction
/// from the first target to the second. Where the taken step is another one,
/// [`crosses`](crate::crosses) says whether it crosses.
pub fn blend_step(l1: i64, l2: i64, old: i64, first: &Rates, second: &Rates, vb: i64) -> (i64, bool)
    requires first_rates { AreRates first.now }
    requires second_rates { AreRates second.now }
    requires first_target { pos 0 ≤ℤ l1 }
    requires second_target { l1 <ℤ l2 }
    requires distance { l2 ≤ℤ pos MOST_WAY }
    requires forward { pos 0 ≤ℤ old }
    requires old { old ≤ℤ pos MOST_STEP }
    requires least_velocity { pos 1 ≤ℤ vb }
    requires most_velocity { vb ≤ℤ pos MOST_STEP }
    ensures value { result.0 ≡ blend_step_of l1 l2 old first.now second.now vb }
    ensures definition { IsBlendStep l1 l2 old first.now second.now vb result.0 }
    ensures crosses { IsTrue result.1 ↔ Crosses l1 l2 second.now vb result.0 }
    ensures ahead { pos 0 ≤ℤ result.0 }
    ensures small { result.0 ≤ℤ pos MOST_STEP }
{
    // laws
    searches_find_the_greatest();
    steps_fall_toward_zero();
    blend_from::<Brand>(l1, l2, old, first, second, vb, Blank::new(1))
}

// The same for any ledger, whose counter nobody reads.
fn blend_from<L: Ledger>(
    l1: i64,
    l2: i64,
    old: i64,
    first: &Rates,
    second: &Rates,
    vb: i64,
    blank: Blank,
) -> (i64, bool)
    requires name { blank.name ≡ L.name }
    requires parts { blank.parts ≡ L.parts }
    requires some { 0 < blank.parts }
    requires first_rates { AreRates first.now }
    requires second_rates { AreRates second.now }
    requires first_target { pos 0 ≤ℤ l1 }
    requires second_target { l1 <ℤ l2 }
    requires distance { l2 ≤ℤ pos MOST_WAY }
    requires forward { pos 0 ≤ℤ old }
    requires old { old ≤ℤ pos MOST_STEP }
    requires least_velocity { pos 1 ≤ℤ vb }
    requires most_velocity { vb ≤ℤ pos MOST_STEP }
    ensures value { result.0 ≡ blend_step_of l1 l2 old first.now second.now vb }
    ensures crosses { IsTrue result.1 ↔ Crosses l1 l2 second.now vb result.0 }
    ensures ahead { pos 0 ≤ℤ result.0 }
    ensures small { result.0 ≤ℤ pos MOST_STEP }
{
    let mut steps = Counter::<L>::open(blank);
    blend_step_counted(l1, l2, old, first, second, vb, &mut steps)
}

/// The same step, with its calls of fits counted.
pub fn blend_step_counted<L: Ledger>(
    l1: i64,
    l2: i64,
    old: i64,
    first: &Rates,
    second: &Rates,
    vb: i64,
    steps: &mut Counter<L>,
) -> (i64, bool)
    requires first_rates { AreRates first.now }
    requires second_rates { AreRates second.now }
    requires first_target { pos 0 ≤ℤ l1 }
    requires second_target { l1 <ℤ l2 }
    requires distance { l2 ≤ℤ pos MOST_WAY }
    requires forward { pos 0 ≤ℤ old }
    requires old { old ≤ℤ pos MOST_STEP }
    requires least_velocity { pos 1 ≤ℤ vb }
    requires most_velocity { vb ≤ℤ pos MOST_STEP }
    ensures value { result.0 ≡ blend_step_of l1 l2 old first.now second.now vb }
    ensures crosses { IsTrue result.1 ↔ Crosses l1 l2 second.now vb result.0 }
    ensures ahead { pos 0 ≤ℤ result.0 }
    ensures small { result.0 ≤ℤ pos MOST_STEP }
    ensures cost { steps.new ≤ steps.old + 1024 }
{
    let (way1, way2) = (l1.unsigned_abs(), l2.unsigned_abs());
    let (speed, passing) = (old.unsigned_abs(), vb.unsigned_abs());
    let step = step_size(way1, way2, speed, first, second, passing, steps) as i64;
    (step, crosses(l1, l2, step, second, vb))
}
