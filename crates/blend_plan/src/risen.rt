// The greatest step from which speeding up takes no less than a way.
ghost use Rattle.std.specs.Prelude.{◌≡◌, ℕ, ◌+◌, ◌-◌, ◌*◌, ◌/◌, ◌^◌, ◌≤◌, ◌<◌};
ghost use Rattle.blend_plan.specs.Sums.{rise_of};

use motion_numbers::{MOST_STEP, MOST_WAY};
use ramp_root::{Counter, greatest_count_counted, sums_of_ramps};
use std::sync::ledger::Ledger;

// The greatest step above `from` and up to `high` from which speeding up by `a` each cycle to `top`
// takes no less than the way, or `from` where there is none.
pub(crate) fn greatest_risen<L: Ledger>(
    way: u64,
    from: u64,
    high: u64,
    top: u64,
    a: u64,
    steps: &mut Counter<L>,
) -> u64
    requires way { way ≤ MOST_WAY }
    requires some { 1 ≤ from }
    requires order { from < high }
    requires within { high ≤ top }
    requires velocity { top ≤ MOST_STEP }
    requires least { 1 ≤ a }
    requires most { a ≤ MOST_STEP }
    ensures above { from ≤ result }
    ensures below { result ≤ high }
    ensures risen { from < result → way ≤ rise_of result top a }
    ensures greatest { (u : ℕ) → from < u → u ≤ high → way ≤ rise_of u top a → u ≤ result }
    ensures cost { steps.new ≤ steps.old + 64 }
{
    if way as u128 <= rise_sum(high, top, a) {
        high
    } else {
        greatest_risen_below(way, from, high, top, a, steps)
    }
}

// The same below a step whose speeding up is too short. Among the steps with the same number of
// terms below `top` the way grows with the step, so the greatest of them decides; and among those
// it grows with the number of terms.
#[inline(never)]
fn greatest_risen_below<L: Ledger>(
    way: u64,
    from: u64,
    high: u64,
    top: u64,
    a: u64,
    steps: &mut Counter<L>,
) -> u64
    requires way { way ≤ MOST_WAY }
    requires some { 1 ≤ from }
    requires order { from < high }
    requires within { high ≤ top }
    requires velocity { top ≤ MOST_STEP }
    requires least { 1 ≤ a }
    requires most { a ≤ MOST_STEP }
    requires short { rise_of high top a < way }
    ensures above { from ≤ result }
    ensures below { result ≤ high }
    ensures risen { from < result → way ≤ rise_of result top a }
    ensures greatest { (u : ℕ) → from < u → u ≤ high → way ≤ rise_of u top a → u ≤ result }
    ensures cost { steps.new ≤ steps.old + 64 }
{
    // laws
    sums_of_ramps();
    let fewest = (top - high).div_ceil(a);
    let most = (top - from - 1).div_ceil(a);
    if most <= fewest {
        return from;
    }
    let slowest = greatest_with_terms(most, top, a);
    let rise = rise_sum(slowest, top, a);
    if rise < way as u128 {
        return from;
    }
    let left_out = greatest_count_counted(rise - way as u128, a, slowest, steps);
    greatest_with_terms(most.saturating_sub(left_out).max(fewest + 1), top, a)
}

// The greatest step with this many terms below `top`, where there is at least one.
fn greatest_with_terms(terms: u64, top: u64, a: u64) -> u64
    requires some { 1 ≤ terms }
    requires fits { terms * a < top + a }
    requires velocity { top ≤ MOST_STEP }
    requires most { a ≤ MOST_STEP }
    ensures value { result + terms * a + 1 ≡ top + a }
{
    top - 1 - (terms - 1) * a
}

// The way of speeding up from `u` to `v`, which is not below it, by `a` each cycle.
fn rise_sum(u: u64, v: u64, a: u64) -> u128
    requires order { u ≤ v }
    requires velocity { v ≤ MOST_STEP }
    requires least { 1 ≤ a }
    requires most { a ≤ MOST_STEP }
    ensures value { result ≡ rise_of u v a }
    ensures small { result < 2 ^ 70 }
{
    // laws
    sums_of_ramps();
    with_terms((v - u).div_ceil(a), u, v, a)
}

// The same from the number of its terms below `v`.
fn with_terms(terms: u64, u: u64, v: u64, a: u64) -> u128
    requires few { terms ≤ MOST_STEP }
    requires step { u ≤ MOST_STEP }
    requires velocity { v ≤ MOST_STEP }
    requires most { a ≤ MOST_STEP }
    ensures { result ≡ a * (terms * (terms - 1) / 2) + u * terms + v }
{
    let pairs = terms as u128 * terms.saturating_sub(1) as u128 / 2;
    a as u128 * pairs + u as u128 * terms as u128 + v as u128
}
