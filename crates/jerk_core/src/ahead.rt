// Kept motions and safe speeds, counted in the direction of the motion.

ghost use Rattle.std.specs.Prelude.{◌≡◌, ◌↔◌, IsTrue, ℕ, Some, None, ◌+◌, ◌-◌, ◌*◌, ◌/◌, ◌<◌, ◌≤◌, min, max};
ghost use Rattle.motion_numbers.specs.Run.{run_of, reach_of};
ghost use Rattle.jerk_core.specs.Braking.{braked_of, way_of};
ghost use Rattle.jerk_core.specs.Rates.{AreJerkRates, IsKeptBy, IsLeftBy, IsSafeBy};

use crate::braking::{braked, rest_fits};
use crate::rates::JerkRates;
use crate::reaching::greatest_fall;
use motion_numbers::{Counter, MOST_STEP, way_fits};
use std::sync::ledger::Ledger;

/// Whether the motion with the speeds `last` and `speed` keeps the rates, and can keep them until
/// it has come to rest within the room. At most one look.
pub fn keeps<L: Ledger>(
    rates: &JerkRates,
    room: u64,
    last: u64,
    speed: u64,
    looks: &mut Counter<L>,
) -> bool
    requires rates { AreJerkRates rates.now }
    requires last { last ≤ 2 * MOST_STEP }
    requires speed { speed ≤ MOST_STEP }
    ensures value { IsTrue result ↔ IsKeptBy rates.now room last speed }
    ensures cost { looks.new ≤ looks.old + 1 }
{
    if !can_go_on(rates, last, speed) {
        return false;
    }
    rest_fits(rates.d, rates.j, last, speed, room, looks)
}

/// The greatest speed up to `most` that may follow the motion and leaves a kept one; where none
/// does, the braked speed, which always does.
pub fn greatest_safe<L: Ledger>(
    rates: &JerkRates,
    room: u64,
    last: u64,
    speed: u64,
    most: u64,
    looks: &mut Counter<L>,
) -> u64
    requires rates { AreJerkRates rates.now }
    requires last { last ≤ 2 * MOST_STEP }
    requires kept { IsKeptBy rates.now room last speed }
    ensures safe { IsSafeBy rates.now room last speed result }
    ensures greatest { (x : ℕ) → IsSafeBy rates.now room last speed x → x ≤ most → x ≤ result }
    ensures within { result ≤ max most (braked_of rates.now.d rates.now.j last speed) }
    ensures cost { looks.new ≤ looks.old + 74 }
{
    let least = braked(rates.d, rates.j, last, speed);
    let top = fastest(rates, last, speed).min(most);
    if top <= least {
        least
    } else {
        greatest_left(rates, room, speed, least, top, looks)
    }
}

// The greatest speed that may follow the motion, wherever it is: by the changes of speed alone.
fn fastest(rates: &JerkRates, last: u64, speed: u64) -> u64
    requires rates { AreJerkRates rates.now }
    requires last { last ≤ 2 * MOST_STEP }
    requires speed { speed ≤ rates.now.v }
    ensures value { result ≡ min (2 * speed + rates.now.j - last) (speed + min rates.now.a (reach_of (rates.now.v - speed) rates.now.j)) }
{
    let rise = greatest_fall(rates.v - speed, rates.j, rates.a);
    (2 * speed + rates.j).saturating_sub(last).min(speed + rise)
}

/// The greatest speed that may follow the motion and leaves a kept one, where the motion is kept;
/// none where it isn't. The fastest speed is tried first: where it leaves a kept motion, that which
/// it follows is kept too.
pub fn safe_speed<L: Ledger>(
    rates: &JerkRates,
    room: u64,
    last: u64,
    speed: u64,
    looks: &mut Counter<L>,
) -> Option<u64>
    requires rates { AreJerkRates rates.now }
    requires last { last ≤ 2 * MOST_STEP }
    requires speed { speed ≤ MOST_STEP }
    ensures kept { (x : ℕ) → result ≡ Some x → IsKeptBy rates.now room last speed }
    ensures safe { (x : ℕ) → result ≡ Some x → IsSafeBy rates.now room last speed x }
    ensures greatest { (x y : ℕ) → result ≡ Some x → IsSafeBy rates.now room last speed y → y ≤ x }
    ensures none { result ≡ None → IsKeptBy rates.now room last speed → ⊥ }
    ensures cost { looks.new ≤ looks.old + 75 }
{
    if !can_go_on(rates, last, speed) {
        return None;
    }
    let top = fastest(rates, last, speed);
    if looks_ahead(rates, room, speed, top, looks) {
        return Some(top);
    }
    if !rest_fits(rates.d, rates.j, last, speed, room, looks) {
        return None;
    }
    let least = braked(rates.d, rates.j, last, speed);
    if top <= least {
        return Some(least);
    }
    Some(greatest_between(rates, room, speed, least, top, looks))
}

// Whether the motion is kept in a room that its way to rest fits.
fn can_go_on(rates: &JerkRates, last: u64, speed: u64) -> bool
    requires rates { AreJerkRates rates.now }
    requires last { last ≤ 2 * MOST_STEP }
    requires speed { speed ≤ MOST_STEP }
    ensures { IsTrue result ↔ IsKeptBy rates.now (way_of rates.now.d rates.now.j last speed) last speed }
{
    speed <= rates.v
        && speed <= last + rates.a
        && last <= speed + rates.d
        && way_fits(
            last.saturating_sub(speed).saturating_sub(rates.j),
            rates.j,
            speed,
        )
        && way_fits(
            speed.saturating_sub(last).saturating_sub(rates.j),
            rates.j,
            rates.v - speed,
        )
}

/// The greatest speed from `least` up to `most` that leaves a kept motion after `speed`, where
/// `least` leaves one, and `most` doesn't pass the rates.
pub fn greatest_left<L: Ledger>(
    rates: &JerkRates,
    room: u64,
    speed: u64,
    least: u64,
    most: u64,
    looks: &mut Counter<L>,
) -> u64
    requires rates { AreJerkRates rates.now }
    requires speed { speed ≤ rates.now.v }
    requires order { least ≤ most }
    requires gains { most ≤ speed + rates.now.a }
    requires tops { most ≤ speed + reach_of (rates.now.v - speed) rates.now.j }
    requires left { IsLeftBy rates.now room speed least }
    ensures left { IsLeftBy rates.now room speed result }
    ensures above { least ≤ result }
    ensures below { result ≤ most }
    ensures greatest { (x : ℕ) → IsLeftBy rates.now room speed x → x ≤ most → x ≤ result }
    ensures cost { looks.new ≤ looks.old + 74 }
{
    if looks_ahead(rates, room, speed, most, looks) {
        return most;
    }
    greatest_between(rates, room, speed, least, most, looks)
}

/// The same, where the greatest of them leaves none: a search, which first steps farther and
/// farther from the least speed, and then halves.
pub fn greatest_between<L: Ledger>(
    rates: &JerkRates,
    room: u64,
    speed: u64,
    least: u64,
    most: u64,
    looks: &mut Counter<L>,
) -> u64
    requires rates { AreJerkRates rates.now }
    requires speed { speed ≤ rates.now.v }
    requires order { least < most }
    requires gains { most ≤ speed + rates.now.a }
    requires tops { most ≤ speed + reach_of (rates.now.v - speed) rates.now.j }
    requires left { IsLeftBy rates.now room speed least }
    requires fails { IsLeftBy rates.now room speed most → ⊥ }
    ensures left { IsLeftBy rates.now room speed result }
    ensures above { least ≤ result }
    ensures below { result ≤ most }
    ensures greatest { (x : ℕ) → IsLeftBy rates.now room speed x → x ≤ most → x ≤ result }
    ensures cost { looks.new ≤ looks.old + 73 }
{
    let mut fits = least;
    let mut fails = most;
    while fails - fits > 1 {
        let middle = between(least, fits, fails);
        if looks_ahead(rates, room, speed, middle, looks) {
            fits = middle;
        } else {
            fails = middle;
        }
    }
    fits
}

// Whether the speed `next` after `speed` and the way to rest after it fit the room. At most one
// look.
fn looks_ahead<L: Ledger>(
    rates: &JerkRates,
    room: u64,
    speed: u64,
    next: u64,
    looks: &mut Counter<L>,
) -> bool
    requires rates { AreJerkRates rates.now }
    requires speed { speed ≤ rates.now.v }
    requires tops { next ≤ speed + reach_of (rates.now.v - speed) rates.now.j }
    ensures value { IsTrue result ↔ ((next ≤ room) × (way_of rates.now.d rates.now.j speed next ≤ room - next)) }
    ensures cost { looks.new ≤ looks.old + 1 }
{
    if room < next {
        return false;
    }
    rest_fits(rates.d, rates.j, speed, next, room - next, looks)
}

// A speed between one that fits and one that fails: as far beyond the first as that is beyond the
// least, since most often the greatest is the least or one more, and at most in the middle.
fn between(least: u64, fits: u64, fails: u64) -> u64
    requires least { least ≤ fits }
    requires gap { fits + 1 < fails }
    ensures above { fits < result }
    ensures below { result < fails }
    ensures value { result ≡ fits + min (max (fits - least) 1) ((fails - fits) / 2) }
{
    fits + (fits - least).max(1).min((fails - fits) / 2)
}
