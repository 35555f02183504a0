// The greatest step that passes the first target.
ghost use Rattle.std.specs.Prelude.{ℕ, ◌+◌, ◌≤◌, ◌<◌, IsTrue, unsigned_abs};
ghost use Rattle.command_pool.specs.Rates.{AreRates};
ghost use Rattle.blend_plan.specs.BlendStep.{passes_first};

use crate::reaches::{reach_up_to, slowed_up_to};
use crate::risen::greatest_risen;
use command_pool::Rates;
use motion_numbers::{MOST_STEP, MOST_WAY, ways_to_rest};
use ramp_root::Counter;
use std::sync::ledger::Ledger;

// The greatest step within the acceleration that passes the first target.
pub(crate) fn greatest_passing<L: Ledger>(
    l1: u64,
    l2: u64,
    old: u64,
    first: &Rates,
    second: &Rates,
    vb: u64,
    steps: &mut Counter<L>,
) -> u64
    requires first_rates { AreRates first.now }
    requires second_rates { AreRates second.now }
    requires second_target { l1 < l2 }
    requires distance { l2 ≤ MOST_WAY }
    requires old { old ≤ MOST_STEP }
    requires least_velocity { 1 ≤ vb }
    requires most_velocity { vb ≤ MOST_STEP }
    ensures within { result ≤ old + unsigned_abs first.now.a }
    ensures passes { IsTrue (passes_first l1 l2 first.now second.now vb result) }
    ensures greatest { (u : ℕ) → u ≤ old + unsigned_abs first.now.a →
        IsTrue (passes_first l1 l2 first.now second.now vb u) → u ≤ result }
    ensures small { result ≤ MOST_STEP }
    ensures cost { steps.new ≤ steps.old + 128 }
{
    // laws
    ways_to_rest();
    let (v, a, d) = (first.v as u64, first.a as u64, first.d as u64);
    let fastest = (old + a).min(v.max(vb));
    let stopping = reach_up_to(l2, second.d as u64, fastest, steps);
    if vb <= v {
        slowed_up_to(l1, vb, d, stopping, steps)
    } else if stopping <= v {
        stopping
    } else {
        greatest_risen(l1, v, stopping, vb, a, steps)
    }
}
