// The way to rest by braking, in closed form: a ramp in which the change of speed falls by j, falls
// by d, and the landing, in which each fall is the greatest that can be taken back.

ghost use Rattle.std.specs.Prelude.{◌≡◌, ◌↔◌, IsTrue, ℕ, ◌+◌, ◌-◌, ◌*◌, ◌^◌, ◌<◌, ◌≤◌, suc, min};
ghost use Rattle.motion_numbers.specs.Run.{run_of, reach_of};
ghost use Rattle.jerk_core.specs.Braking.{way_of};
ghost use Rattle.jerk_core.specs.Sums.{triangle_of, tetrahedron_of, IsRamp};

use crate::reaching::{root_about, whole_falls};
use crate::sums::{MOST_CYCLES, MOST_FALLS, tetrahedron, triangle};
use motion_numbers::{Counter, MOST_STEP, ramp_sum, way_fits};
use std::sync::ledger::Ledger;

/// The way to rest by braking, in internal units: the speeds of all its cycles, added up. One look,
/// which it counts.
pub fn way_to_rest<L: Ledger>(d: u64, j: u64, last: u64, speed: u64, looks: &mut Counter<L>) -> u128
    requires d_least { 1 ≤ d }
    requires d_most { d ≤ MOST_STEP }
    requires j_least { 1 ≤ j }
    requires j_most { j ≤ MOST_STEP }
    requires last { last ≤ 2 * MOST_STEP }
    requires tops { speed + run_of (speed - last - j) j ≤ MOST_STEP }
    ensures value { result ≡ way_of d j last speed }
    ensures look { looks.new ≡ looks.old + 1 }
{
    looks.tick();
    way_in_parts(d, j, last, speed)
}

// The same, as the ramp and what is behind it.
fn way_in_parts(d: u64, j: u64, last: u64, speed: u64) -> u128
    requires d_least { 1 ≤ d }
    requires d_most { d ≤ MOST_STEP }
    requires j_least { 1 ≤ j }
    requires j_most { j ≤ MOST_STEP }
    requires last { last ≤ 2 * MOST_STEP }
    requires tops { speed + run_of (speed - last - j) j ≤ MOST_STEP }
    ensures value { result ≡ way_of d j last speed }
{
    let cycles = ramp_cycles(d, j, last, speed);
    if cycles == 0 {
        return way_of_falls(d, j, last, speed);
    }
    let before = speed_of_ramp(j, last, speed, cycles - 1);
    let now = before + speed - (cycles * j + last);
    way_of_ramp(j, speed, now, cycles) + way_of_falls(d, j, before, now)
}

// The cycles of the ramp.
fn ramp_cycles(d: u64, j: u64, last: u64, speed: u64) -> u64
    requires d { d ≤ MOST_STEP }
    requires j_least { 1 ≤ j }
    requires j_most { j ≤ MOST_STEP }
    requires last { last ≤ 2 * MOST_STEP }
    requires tops { speed + run_of (speed - last - j) j ≤ MOST_STEP }
    ensures goes { (n : ℕ) → result ≡ suc n → IsRamp d j last speed n }
    ensures ends { IsRamp d j last speed result → ⊥ }
    ensures span { result * j ≤ 2 * MOST_STEP }
    ensures few { result ≤ MOST_CYCLES }
{
    let most = (d + speed).saturating_sub(last) / j;
    if most == 0 {
        return 0;
    }
    if is_ramp(d, j, last, speed, most - 1) {
        return most;
    }
    cycles_below(d, j, last, speed, most)
}

// The cycles of a ramp whose fall doesn't come to d: from about as many as they are.
fn cycles_below(d: u64, j: u64, last: u64, speed: u64, most: u64) -> u64
    requires d { d ≤ MOST_STEP }
    requires j_least { 1 ≤ j }
    requires last { last ≤ 2 * MOST_STEP }
    requires tops { speed + run_of (speed - last - j) j ≤ MOST_STEP }
    requires some { 0 < most }
    requires span { most * j ≤ 2 * MOST_STEP }
    requires fewer { IsRamp d j last speed (most - 1) → ⊥ }
    ensures goes { (n : ℕ) → result ≡ suc n → IsRamp d j last speed n }
    ensures ends { IsRamp d j last speed result → ⊥ }
    ensures within { result < most }
{
    let guess = cycles_about(j, last, speed).min(most - 1);
    let mut cycles = some_cycles(d, j, last, speed, guess);
    while is_ramp(d, j, last, speed, cycles) {
        cycles += 1;
    }
    cycles
}

// As many cycles of the ramp as the guess says, or fewer.
fn some_cycles(d: u64, j: u64, last: u64, speed: u64, guess: u64) -> u64
    requires d { d ≤ MOST_STEP }
    requires j_least { 1 ≤ j }
    requires last { last ≤ 2 * MOST_STEP }
    requires tops { speed + run_of (speed - last - j) j ≤ MOST_STEP }
    requires span { guess * j ≤ 2 * MOST_STEP }
    ensures goes { (n : ℕ) → result ≡ suc n → IsRamp d j last speed n }
    ensures within { result ≤ guess }
{
    let mut cycles = guess;
    while cycles > 0 {
        if is_ramp(d, j, last, speed, cycles - 1) {
            return cycles;
        }
        cycles -= 1;
    }
    0
}

// About as many cycles as the ramp has, as a first guess: the fall at its end is about the root of
// v * j and of half of the square of the change of speed.
fn cycles_about(j: u64, last: u64, speed: u64) -> u64
    requires j { 1 ≤ j }
{
    let change = last.abs_diff(speed);
    let square = change.saturating_mul(change) / 2;
    let fall = root_about(speed.saturating_mul(j).saturating_add(square));
    if last <= speed {
        fall.saturating_add(change) / j
    } else {
        fall.saturating_sub(change) / j
    }
}

// Whether the cycle after `n` cycles of the ramp is one of the ramp too.
fn is_ramp(d: u64, j: u64, last: u64, speed: u64, n: u64) -> bool
    requires d { d ≤ MOST_STEP }
    requires j_least { 1 ≤ j }
    requires last { last ≤ 2 * MOST_STEP }
    requires tops { speed + run_of (speed - last - j) j ≤ MOST_STEP }
    requires span { (n + 1) * j ≤ 2 * MOST_STEP }
    ensures { IsTrue result ↔ IsRamp d j last speed n }
{
    if n > MOST_CYCLES {
        return false;
    }
    let fall = ((n + 1) * j + last).saturating_sub(speed);
    let whole = (n + 1) * speed;
    let less = less_by_ramp(j, last, n);
    fall <= d && less <= whole && way_fits(fall, j, whole - less)
}

// How much less than n + 1 times the speed at its beginning the speed after n cycles of a ramp is.
fn less_by_ramp(j: u64, last: u64, n: u64) -> u64
    requires last { last ≤ 2 * MOST_STEP }
    requires few { n ≤ MOST_CYCLES }
    requires span { n * j ≤ 2 * MOST_STEP }
    ensures { result ≡ n * last + j * triangle_of n }
{
    n * last + n * j * (n + 1) / 2
}

// The speed after n cycles of a ramp.
fn speed_of_ramp(j: u64, last: u64, speed: u64, n: u64) -> u64
    requires last { last ≤ 2 * MOST_STEP }
    requires speed { speed ≤ MOST_STEP }
    requires few { n ≤ MOST_CYCLES }
    requires span { n * j ≤ 2 * MOST_STEP }
    requires above { n * last + j * triangle_of n ≤ suc n * speed }
    ensures { result + (n * last + j * triangle_of n) ≡ suc n * speed }
{
    (n + 1) * speed - less_by_ramp(j, last, n)
}

// The way of n cycles of a ramp, from the speed at its beginning and that at its end.
fn way_of_ramp(j: u64, speed: u64, now: u64, n: u64) -> u128
    requires j { j ≤ MOST_STEP }
    requires speed { speed ≤ MOST_STEP }
    requires now { now ≤ MOST_STEP }
    requires some { 1 ≤ n }
    requires few { n ≤ MOST_CYCLES }
    ensures value { (s : ℕ) → suc n * (speed + now) + j * tetrahedron_of n ≡ 2 * (s + speed) → result ≡ s }
    ensures small { result ≤ 2 ^ 100 }
{
    let twice = ((n + 1) * (speed + now)) as u128 + j as u128 * tetrahedron(n) as u128;
    twice / 2 - speed as u128
}

// The way to rest behind the ramp: falls by d, and the landing.
fn way_of_falls(d: u64, j: u64, last: u64, speed: u64) -> u128
    requires d_least { 1 ≤ d }
    requires d_most { d ≤ MOST_STEP }
    requires j_least { 1 ≤ j }
    requires j_most { j ≤ MOST_STEP }
    requires last { last ≤ 2 * MOST_STEP }
    requires speed { speed ≤ MOST_STEP }
    requires bends { speed + min d (reach_of speed j) ≤ last + j }
    ensures value { result ≡ way_of d j last speed }
    ensures small { result ≤ 2 ^ 120 }
{
    let landing = ramp_sum(d, j);
    if (speed as u128) < landing {
        return way_of_landing(j, last, speed) as u128;
    }
    let falls = (speed - landing as u64) / d + 1;
    let rest = speed - falls * d;
    way_of_flat(d, speed, falls) + way_of_landing(j, rest + d, rest) as u128
}

// The way of n falls by d.
fn way_of_flat(d: u64, speed: u64, n: u64) -> u128
    requires d { 1 ≤ d }
    requires speed { speed ≤ MOST_STEP }
    requires some { 1 ≤ n }
    requires falls { n * d ≤ speed }
    ensures value { result + d * triangle_of n ≡ n * speed }
    ensures small { result ≤ 2 ^ 100 }
{
    n as u128 * (2 * speed - (n * d + d)) as u128 / 2
}

// The way of the landing.
fn way_of_landing(j: u64, last: u64, speed: u64) -> u64
    requires j_least { 1 ≤ j }
    requires j_most { j ≤ MOST_STEP }
    requires last { last ≤ 2 * MOST_STEP }
    requires speed { speed ≤ MOST_STEP }
    ensures { (d : ℕ) → 1 ≤ d → reach_of speed j ≤ d → speed + reach_of speed j ≤ last + j → result ≡ way_of d j last speed }
{
    let guess = (last.saturating_sub(speed) / j).min(MOST_FALLS);
    let falls = whole_falls(speed / j, guess);
    let left = speed - j * triangle(falls);
    landing_sum(j, falls, left / (falls + 1), left % (falls + 1))
}

// The way of the landing, whose falls are `rest` and whole falls by j; `over` is what the speed has
// more than their way.
fn landing_sum(j: u64, falls: u64, rest: u64, over: u64) -> u64
    requires j { 1 ≤ j }
    requires few { falls ≤ MOST_FALLS }
    requires rest { rest * suc falls ≤ MOST_STEP }
    requires whole { j * triangle_of falls ≤ MOST_STEP }
    requires over { over ≤ falls }
    ensures { result ≡ rest * triangle_of falls + j * tetrahedron_of falls + (over * (falls - over) + triangle_of over) }
{
    let even = rest * triangle(falls) + j * tetrahedron(falls);
    even + (over * (falls - over) + triangle(over))
}
