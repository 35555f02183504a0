// The greatest number of terms of a ramp whose sum fits.
ghost use Rattle.std.specs.Prelude.{◌≡◌, ℕ, ◌+◌, ◌-◌, ◌*◌, ◌/◌, ◌^◌, ◌<◌, ◌≤◌, ◌↔◌, IsTrue};
ghost use Rattle.ramp_root.specs.Laws.{AreSums};
ghost use Rattle.ramp_root.specs.Sums.{sum_of};

use crate::roots::root;
use motion_numbers::Counter;
use std::marker::Brand;
use std::sync::ledger::{Blank, Ledger};

/// Whether the sum of `k` terms, of which the first is `r` and each next one is greater by `d`, is
/// at most `l`. One step.
pub fn fits<L: Ledger>(k: u64, l: u128, d: u64, r: u64, steps: &mut Counter<L>) -> bool
    requires terms { k ≤ 2 ^ 40 }
    requires sum { l < 2 ^ 70 }
    requires rise { d ≤ 2 ^ 40 }
    requires first { r ≤ 2 ^ 40 }
    ensures value { IsTrue result ↔ (sum_of k d r ≤ l) }
    ensures step { steps.new ≡ steps.old + 1 }
{
    steps.tick();
    let pairs = k as u128 * k.saturating_sub(1) as u128;
    d as u128 * pairs / 2 + r as u128 * k as u128 <= l
}

/// The greatest number of terms whose sum is at most `l`, of which the first is `r` and each next
/// one is greater by `d`: the greatest `k` with `d * k * (k - 1) / 2 + r * k <= l`.
pub fn greatest_count(l: u128, d: u64, r: u64) -> u64
    requires sum { l < 2 ^ 70 }
    requires least_rise { 0 < d }
    requires rise { d ≤ 2 ^ 40 }
    requires least_first { 0 < r }
    requires first { r ≤ 2 ^ 40 }
    ensures fits { sum_of result d r ≤ l }
    ensures greatest { (k : ℕ) → sum_of k d r ≤ l → k ≤ result }
    ensures small { result < 2 ^ 36 }
{
    count_from::<Brand>(l, d, r, Blank::new(1))
}

// The same for any ledger, whose counter nobody reads.
fn count_from<L: Ledger>(l: u128, d: u64, r: u64, blank: Blank) -> u64
    requires name { blank.name ≡ L.name }
    requires parts { blank.parts ≡ L.parts }
    requires some { 0 < blank.parts }
    requires sum { l < 2 ^ 70 }
    requires least_rise { 0 < d }
    requires rise { d ≤ 2 ^ 40 }
    requires least_first { 0 < r }
    requires first { r ≤ 2 ^ 40 }
    ensures fits { sum_of result d r ≤ l }
    ensures greatest { (k : ℕ) → sum_of k d r ≤ l → k ≤ result }
    ensures small { result < 2 ^ 36 }
{
    let mut steps = Counter::<L>::open(blank);
    greatest_count_counted(l, d, r, &mut steps)
}

/// The same count, with its steps counted.
pub fn greatest_count_counted<L: Ledger>(l: u128, d: u64, r: u64, steps: &mut Counter<L>) -> u64
    requires sum { l < 2 ^ 70 }
    requires least_rise { 0 < d }
    requires rise { d ≤ 2 ^ 40 }
    requires least_first { 0 < r }
    requires first { r ≤ 2 ^ 40 }
    ensures fits { sum_of result d r ≤ l }
    ensures greatest { (k : ℕ) → sum_of k d r ≤ l → k ≤ result }
    ensures small { result < 2 ^ 36 }
    ensures cost { steps.new ≤ steps.old + 64 }
{
    if fits(1, l, d, r, steps) {
        count_by_root(l, d, r)
    } else {
        0
    }
}

// The count of a sum that fits, by completing the square of the sum.
fn count_by_root(l: u128, d: u64, r: u64) -> u64
    requires sum { l < 2 ^ 70 }
    requires least_rise { 0 < d }
    requires rise { d ≤ 2 ^ 40 }
    requires first { r ≤ 2 ^ 40 }
    ensures fits { sum_of result d r ≤ l }
    ensures greatest { (k : ℕ) → sum_of k d r ≤ l → k ≤ result }
{
    let twice = 2 * r;
    let offset = twice.abs_diff(d) as u128;
    let square = 8 * d as u128 * l + offset * offset;
    (root(square) + d - twice) / (2 * d)
}

/// The sum of a ramp's first terms, in closed form.
pub fn sums_in_closed_form()
    ensures { (k d r : ℕ) → sum_of k d r ≡ d * k * (k - 1) / 2 + r * k }
{}

/// The sum of a ramp's first terms, by its first term, its pairs, its parts and its size.
pub fn sums_of_ramps()
    ensures { AreSums }
{}
