// The size of the blend step.
ghost use Rattle.std.specs.Prelude.{◌≡◌, ℕ, ◌+◌, ◌≤◌, ◌<◌, IsTrue, unsigned_abs};
ghost use Rattle.command_pool.specs.Rates.{AreRates};
ghost use Rattle.blend_plan.specs.BlendStep.{stops_or_passes, blend_size_of};

use crate::passing::greatest_passing;
use crate::reaches::reach_up_to;
use command_pool::Rates;
use motion_numbers::{MOST_STEP, MOST_WAY, searches_find_the_greatest, ways_to_rest};
use ramp_root::Counter;
use std::sync::ledger::Ledger;

// The greatest step that stops at the first target or passes it, where the old step can be slowed
// as far, and else the old step slowed by the first deceleration.
pub(crate) fn step_size<L: Ledger>(
    l1: u64,
    l2: u64,
    old: u64,
    first: &Rates,
    second: &Rates,
    vb: u64,
    steps: &mut Counter<L>,
) -> u64
    requires first_rates { AreRates first.now }
    requires second_rates { AreRates second.now }
    requires second_target { l1 < l2 }
    requires distance { l2 ≤ MOST_WAY }
    requires old { old ≤ MOST_STEP }
    requires least_velocity { 1 ≤ vb }
    requires most_velocity { vb ≤ MOST_STEP }
    ensures value { result ≡ blend_size_of l1 l2 old first.now second.now vb }
    ensures small { result ≤ MOST_STEP }
    ensures cost { steps.new ≤ steps.old + 192 }
{
    // laws
    searches_find_the_greatest();
    let greatest = greatest_step(l1, l2, old, first, second, vb, steps);
    let braking = (first.d as u64).max(second.d as u64);
    if old.saturating_sub(braking) <= greatest {
        greatest
    } else {
        old.saturating_sub(first.d as u64)
    }
}

// The greatest step within the acceleration that stops at the first target or passes it. Where
// passing gives the fastest step of the first move, stopping gives no faster one.
fn greatest_step<L: Ledger>(
    l1: u64,
    l2: u64,
    old: u64,
    first: &Rates,
    second: &Rates,
    vb: u64,
    steps: &mut Counter<L>,
) -> u64
    requires first_rates { AreRates first.now }
    requires second_rates { AreRates second.now }
    requires second_target { l1 < l2 }
    requires distance { l2 ≤ MOST_WAY }
    requires old { old ≤ MOST_STEP }
    requires least_velocity { 1 ≤ vb }
    requires most_velocity { vb ≤ MOST_STEP }
    ensures within { result ≤ old + unsigned_abs first.now.a }
    ensures leads { IsTrue (stops_or_passes l1 l2 first.now second.now vb result) }
    ensures greatest { (u : ℕ) → u ≤ old + unsigned_abs first.now.a →
        IsTrue (stops_or_passes l1 l2 first.now second.now vb u) → u ≤ result }
    ensures small { result ≤ MOST_STEP }
    ensures cost { steps.new ≤ steps.old + 192 }
{
    // laws
    ways_to_rest();
    let passing = greatest_passing(l1, l2, old, first, second, vb, steps);
    let fastest = (first.v as u64).min(old + first.a as u64);
    if fastest <= passing {
        passing
    } else {
        passing.max(reach_up_to(l1, first.d as u64, fastest, steps))
    }
}
