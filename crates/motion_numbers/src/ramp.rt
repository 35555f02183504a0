// The way to rest, and the greatest step whose way fits a room.

ghost use Rattle.std.specs.Prelude.{◌≡◌, ◌↔◌, IsTrue, ℕ, ◌<◌, ◌≤◌, min, pos, ◌≤ℤ◌, unsigned_abs};
ghost use Rattle.motion_numbers.specs.Ranges.{IsStep};
ghost use Rattle.motion_numbers.specs.Run.{run_of, reach_of, cut_at_zero};

use crate::{MOST_RAMP, MOST_STEP};

/// The way from the step `u` to rest, braking by `d` each cycle: the sum of the positive ones among
/// u, u - d, u - 2d and so on, in internal units. It is 0 where `u` is not positive.
pub fn run_sum(u: i64, d: i64) -> i128
    requires step { IsStep u }
    requires fall { pos 1 ≤ℤ d }
    requires fall_in_range { d ≤ℤ pos MOST_STEP }
    ensures value { result ≡ pos (run_of (cut_at_zero u) (unsigned_abs d)) }
    ensures ahead { pos 0 ≤ℤ u → result ≡ pos (run_of (unsigned_abs u) (unsigned_abs d)) }
    ensures small { unsigned_abs result ≤ MOST_RAMP }
{
    ramp_sum(u.max(0) as u64, d as u64) as i128
}

/// The same for sizes: the way from a step of size `u` to rest, braking by `d` each cycle.
pub fn ramp_sum(u: u64, d: u64) -> u128
    requires step { u ≤ MOST_STEP }
    requires fall { 1 ≤ d }
    ensures value { result ≡ run_of u d }
    ensures small { result ≤ MOST_RAMP }
{
    let terms = u / d + 1;
    let first_and_last = u + u % d;
    terms as u128 * first_and_last as u128 / 2
}

/// Whether the way to rest from a step of size `u`, braking by `d` each cycle, fits a room. Twice
/// the fall times the way is at most the square of the step and the fall together, so that mostly
/// no division is needed to see it.
pub fn way_fits(u: u64, d: u64, room: u64) -> bool
    requires step { u ≤ MOST_STEP }
    requires fall { 1 ≤ d }
    ensures { IsTrue result ↔ (run_of u d ≤ room) }
{
    if u <= d {
        return u <= room;
    }
    let whole = (u + d) as u128;
    whole * whole <= (2 * d) as u128 * room as u128 || ramp_sum(u, d) <= room as u128
}

/// The greatest step up to `most` whose way to rest, braking by `d`, is no longer than `room`.
pub fn greatest_ramp(room: u64, d: u64, most: u64) -> u64
    requires step { most ≤ MOST_STEP }
    requires fall { 1 ≤ d }
    ensures value { result ≡ min most (reach_of room d) }
{
    if way_fits(most, d, room) {
        most
    } else {
        greatest_ramp_below(room, d, most)
    }
}

// The greatest step whose way fits, below a step whose way is too long: by halving.
fn greatest_ramp_below(room: u64, d: u64, over: u64) -> u64
    requires step { over ≤ MOST_STEP }
    requires fall { 1 ≤ d }
    requires too_long { room < run_of over d }
    ensures value { result ≡ reach_of room d }
{
    let mut fits = 0;
    let mut fails = over;
    while fails - fits > 1 {
        let middle = fits + (fails - fits) / 2;
        if ramp_sum(middle, d) <= room as u128 {
            fits = middle;
        } else {
            fails = middle;
        }
    }
    fits
}
