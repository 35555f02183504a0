// The greatest steps from which slowing fits a way.
ghost use Rattle.std.specs.Prelude.{◌≡◌, ℕ, ◌+◌, ◌≤◌, min};
ghost use Rattle.motion_numbers.specs.Run.{reach_of};
ghost use Rattle.blend_plan.specs.Sums.{above_of};

use kin_core::ramp_sum;
use motion_numbers::{MOST_STEP, MOST_WAY, ways_to_rest};
use ramp_root::{Counter, greatest_count_counted, reach, sums_of_ramps};
use std::sync::ledger::Ledger;

// The greatest step up to `most` from which slowing by `d` each cycle to rest needs no more than
// the way. While an axis speeds up or cruises, `most` is the answer.
pub(crate) fn reach_up_to<L: Ledger>(way: u64, d: u64, most: u64, steps: &mut Counter<L>) -> u64
    requires least_fall { 1 ≤ d }
    requires most_fall { d ≤ MOST_STEP }
    requires way { way ≤ MOST_WAY }
    requires step { most ≤ MOST_STEP }
    ensures value { result ≡ min most (reach_of way d) }
    ensures cost { steps.new ≤ steps.old + 64 }
{
    // laws
    ways_to_rest();
    if ramp_sum(most, d) <= way as u128 {
        most
    } else {
        most.min(reach(way, d, steps))
    }
}

// The greatest step up to `most` from which slowing by `d` each cycle to at most `to` needs no more
// than the way.
pub(crate) fn slowed_up_to<L: Ledger>(
    way: u64,
    to: u64,
    d: u64,
    most: u64,
    steps: &mut Counter<L>,
) -> u64
    requires least_fall { 1 ≤ d }
    requires most_fall { d ≤ MOST_STEP }
    requires velocity { to ≤ MOST_STEP }
    requires way { way ≤ MOST_WAY }
    requires step { most ≤ MOST_STEP }
    ensures below { result ≤ most }
    ensures slowed { above_of result to d ≤ way }
    ensures greatest { (u : ℕ) → u ≤ most → above_of u to d ≤ way → u ≤ result }
    ensures cost { steps.new ≤ steps.old + 64 }
{
    if most <= to || ramp_sum(most, d) <= way as u128 {
        most
    } else {
        most.min(greatest_slowed(way, to, d, steps))
    }
}

// The greatest of all of them.
#[inline(never)]
fn greatest_slowed<L: Ledger>(way: u64, to: u64, d: u64, steps: &mut Counter<L>) -> u64
    requires least { 1 ≤ d }
    requires most { d ≤ MOST_STEP }
    requires velocity { to ≤ MOST_STEP }
    requires way { way ≤ MOST_WAY }
    ensures slowed { above_of result to d ≤ way }
    ensures greatest { (u : ℕ) → above_of u to d ≤ way → u ≤ result }
    ensures cost { steps.new ≤ steps.old + 64 }
{
    // laws
    sums_of_ramps();
    let terms = greatest_count_counted(way as u128, d, to + 1, steps);
    if terms == 0 {
        return to;
    }
    let rest = way - d * (terms * (terms - 1) / 2);
    (terms - 1) * d + (to + d).min(rest / terms)
}
