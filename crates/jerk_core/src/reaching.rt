// The greatest fall of a speed, or gain of one, that can be taken back.

ghost use Rattle.std.specs.Prelude.{◌≡◌, ℕ, ◌+◌, ◌*◌, ◌<◌, ◌≤◌, suc, min};
ghost use Rattle.motion_numbers.specs.Run.{run_of, reach_of};
ghost use Rattle.jerk_core.specs.Sums.{triangle_of};

use crate::sums::{MOST_FALLS, triangle};
use motion_numbers::{MOST_STEP, way_fits};

/// The greatest fall up to `most` that can be taken back within the speed, where it falls by `j`
/// each cycle.
pub fn greatest_fall(speed: u64, j: u64, most: u64) -> u64
    requires speed { speed ≤ MOST_STEP }
    requires j { 1 ≤ j }
    requires most { most ≤ MOST_STEP }
    ensures value { result ≡ min most (reach_of speed j) }
{
    if way_fits(most, j, speed) {
        most
    } else {
        greatest_fall_of(speed, j)
    }
}

// The greatest fall that can be taken back within the speed: whole falls by j, and a rest.
fn greatest_fall_of(speed: u64, j: u64) -> u64
    requires speed { speed ≤ MOST_STEP }
    requires j { 1 ≤ j }
    ensures { result ≡ reach_of speed j }
{
    if speed <= j {
        return speed;
    }
    let share = speed / j;
    let falls = whole_falls(share, root_about(2 * share).min(MOST_FALLS));
    falls * j + (speed - j * triangle(falls)) / (falls + 1)
}

/// How many falls by j there are whose sum is at most j times the share, from a first guess.
pub(crate) fn whole_falls(share: u64, guess: u64) -> u64
    requires share { share ≤ MOST_STEP }
    requires guess { guess ≤ MOST_FALLS }
    ensures few { result ≤ MOST_FALLS }
    ensures fits { triangle_of result ≤ share }
    ensures greatest { share < triangle_of (suc result) }
{
    let mut falls = guess;
    while triangle(falls) > share {
        falls -= 1;
    }
    while triangle(falls + 1) <= share {
        falls += 1;
    }
    falls
}

/// About the root of a number, as a first guess.
pub(crate) fn root_about(n: u64) -> u64
    ensures { 1 ≤ result }
{
    if n == 0 {
        return 1;
    }
    let first = nearer(n, 1 << (n.ilog2() / 2));
    nearer(n, nearer(n, nearer(n, first)))
}

// A number nearer to the root of `n`, by Newton's step.
fn nearer(n: u64, root: u64) -> u64
    requires { 1 ≤ root }
    ensures { 1 ≤ result }
{
    (root.saturating_add(n / root) / 2).max(1)
}
