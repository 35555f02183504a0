// The step that an axis with limited jerk takes: the safe step nearest to the wanted one.

ghost use Rattle.std.specs.Prelude.{◌≡◌, ◌↔◌, IsTrue, ℕ, ℤ, ◌+◌, ◌*◌, ◌<◌, ◌≤◌, pos, neg_ℤ, ◌+ℤ◌, ◌-ℤ◌, ◌≤ℤ◌, unsigned_abs};
ghost use Rattle.motion_numbers.specs.Ranges.{IsStep};
ghost use Rattle.jerk_core.specs.Rates.{AreJerkRates, IsKeptBy, IsLeftBy};
ghost use Rattle.jerk_core.specs.Admissible.{AreJerkLimits, IsKeptByJerk, IsSafeByJerk, IsTakenByJerk, rates_of};
ghost use Rattle.jerk_core.specs.Taken.{IsSafeFrom, IsMotionUp, IsMotionDown};

use crate::ahead::{greatest_left, greatest_safe};
use crate::limits::JerkLimits;
use crate::motions::{Motion, Setpoints};
use crate::rates::JerkRates;
use crate::reaching::greatest_fall;
use motion_numbers::{Counter, MOST_STEP, MOST_WAY};
use std::marker::Brand;
use std::sync::ledger::{Blank, Ledger};

/// The safe step nearest to the `wanted` one after three setpoints. All are in internal units, and
/// steps are signed; the wanted step is one where it is safe.
pub fn nearest_safe(limits: &JerkLimits, at: &Setpoints, wanted: i64) -> i64
    requires limits { AreJerkLimits limits.now }
    requires kept { IsKeptByJerk limits.now at.now.first at.now.before at.now.current }
    requires wanted_in_range { unsigned_abs wanted ≤ 2 * MOST_WAY }
    ensures taken { IsTakenByJerk limits.now at.now.first at.now.before at.now.current wanted result }
    ensures small { IsStep result }
{
    nearest_safe_by::<Brand>(limits, at, wanted, Blank::new(1))
}

// The same for any ledger, whose counter nobody reads.
fn nearest_safe_by<L: Ledger>(limits: &JerkLimits, at: &Setpoints, wanted: i64, blank: Blank) -> i64
    requires name { blank.name ≡ L.name }
    requires parts { blank.parts ≡ L.parts }
    requires some { 0 < blank.parts }
    requires limits { AreJerkLimits limits.now }
    requires kept { IsKeptByJerk limits.now at.now.first at.now.before at.now.current }
    requires wanted_in_range { unsigned_abs wanted ≤ 2 * MOST_WAY }
    ensures taken { IsTakenByJerk limits.now at.now.first at.now.before at.now.current wanted result }
    ensures small { IsStep result }
{
    let mut looks = Counter::<L>::open(blank);
    nearest_safe_counted(limits, at, wanted, &mut looks)
}

/// The same, with its looks at the way to rest counted.
pub fn nearest_safe_counted<L: Ledger>(
    limits: &JerkLimits,
    at: &Setpoints,
    wanted: i64,
    looks: &mut Counter<L>,
) -> i64
    requires limits { AreJerkLimits limits.now }
    requires kept { IsKeptByJerk limits.now at.now.first at.now.before at.now.current }
    requires wanted_in_range { unsigned_abs wanted ≤ 2 * MOST_WAY }
    ensures taken { IsTakenByJerk limits.now at.now.first at.now.before at.now.current wanted result }
    ensures small { IsStep result }
    ensures cost { looks.new ≤ looks.old + 74 }
{
    let rates = sizes(limits);
    if rises(at) {
        nearest_ahead(&rates, &upward(limits, at), wanted, looks)
    } else {
        -nearest_ahead(&rates, &downward(limits, at), -wanted, looks)
    }
}

// Whether the setpoints rise.
pub(crate) fn rises(at: &Setpoints) -> bool
    ensures { IsTrue result ↔ ((at.now.first ≤ℤ at.now.before) × (at.now.before ≤ℤ at.now.current)) }
{
    at.first <= at.before && at.before <= at.current
}

// The limits of step and of its changes, as sizes.
pub(crate) fn sizes(limits: &JerkLimits) -> JerkRates
    requires limits { AreJerkLimits limits.now }
    ensures value { result ≡ rates_of limits.now }
    ensures ranges { AreJerkRates result }
{
    JerkRates {
        v: limits.axis.vmax as u64,
        a: limits.axis.amax as u64,
        d: limits.axis.dmax as u64,
        j: limits.jmax as u64,
    }
}

// The way from a setpoint up to one that isn't below it.
fn size_between(low: i64, high: i64) -> u64
    requires order { low ≤ℤ high }
    ensures value { (high -ℤ low) ≡ pos result }
{
    low.abs_diff(high)
}

// The motion that three rising setpoints make.
pub(crate) fn upward(limits: &JerkLimits, at: &Setpoints) -> Motion
    requires above { limits.now.axis.lo ≤ℤ at.now.current }
    requires below { at.now.current ≤ℤ limits.now.axis.hi }
    requires rises { at.now.first ≤ℤ at.now.before }
    requires rises_on { at.now.before ≤ℤ at.now.current }
    ensures is { IsMotionUp limits.now at.now.first at.now.before at.now.current result }
{
    Motion {
        ahead: size_between(at.current, limits.axis.hi),
        behind: size_between(limits.axis.lo, at.current),
        last: size_between(at.first, at.before),
        speed: size_between(at.before, at.current),
    }
}

// The motion that three falling setpoints make.
pub(crate) fn downward(limits: &JerkLimits, at: &Setpoints) -> Motion
    requires above { limits.now.axis.lo ≤ℤ at.now.current }
    requires below { at.now.current ≤ℤ limits.now.axis.hi }
    requires falls { at.now.before ≤ℤ at.now.first }
    requires falls_on { at.now.current ≤ℤ at.now.before }
    ensures is { IsMotionDown limits.now at.now.first at.now.before at.now.current result }
{
    Motion {
        ahead: size_between(limits.axis.lo, at.current),
        behind: size_between(at.current, limits.axis.hi),
        last: size_between(at.before, at.first),
        speed: size_between(at.current, at.before),
    }
}

// The safe step nearest to the wanted one, both counted in the direction of the motion.
fn nearest_ahead<L: Ledger>(
    rates: &JerkRates,
    motion: &Motion,
    wanted: i64,
    looks: &mut Counter<L>,
) -> i64
    requires rates { AreJerkRates rates.now }
    requires last { motion.now.last ≤ 2 * MOST_STEP }
    requires kept { IsKeptBy rates.now motion.now.ahead motion.now.last motion.now.speed }
    ensures safe { IsSafeFrom rates.now motion.now result }
    ensures nearest { (other : ℤ) → IsSafeFrom rates.now motion.now other →
        unsigned_abs (result -ℤ wanted) ≤ unsigned_abs (other -ℤ wanted) }
    ensures small { IsStep result }
    ensures cost { looks.new ≤ looks.old + 74 }
{
    if 0 <= wanted {
        greatest_safe(
            rates,
            motion.ahead,
            motion.last,
            motion.speed,
            wanted as u64,
            looks,
        ) as i64
    } else if 0 < motion.speed {
        greatest_safe(rates, motion.ahead, motion.last, motion.speed, 0, looks) as i64
    } else {
        -(greatest_back(rates, motion, wanted.unsigned_abs(), looks) as i64)
    }
}

// The greatest speed up to `most` by which a motion that stands may turn.
fn greatest_back<L: Ledger>(
    rates: &JerkRates,
    motion: &Motion,
    most: u64,
    looks: &mut Counter<L>,
) -> u64
    requires rates { AreJerkRates rates.now }
    requires last { motion.now.last ≤ 2 * MOST_STEP }
    ensures left { IsLeftBy rates.now motion.now.behind 0 result }
    ensures bends { result ≤ motion.now.last + rates.now.j }
    ensures within { result ≤ most }
    ensures greatest { (x : ℕ) → IsLeftBy rates.now motion.now.behind 0 x → x ≤ motion.now.last + rates.now.j → x ≤ most → x ≤ result }
    ensures cost { looks.new ≤ looks.old + 74 }
{
    let fastest = greatest_fall(rates.v, rates.j, rates.a);
    let top = fastest.min(motion.last + rates.j).min(most);
    greatest_left(rates, motion.behind, 0, 0, top, looks)
}
