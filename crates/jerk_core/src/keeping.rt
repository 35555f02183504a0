// Whether three setpoints are kept.

ghost use Rattle.std.specs.Prelude.{◌≡◌, ◌↔◌, IsTrue, ◌≤ℤ◌, ◌+◌, ◌<◌, ◌≤◌};
ghost use Rattle.jerk_core.specs.Rates.{AreJerkRates, IsKeptBy};
ghost use Rattle.jerk_core.specs.Admissible.{AreJerkLimits, IsKeptByJerk};

use crate::ahead::keeps;
use crate::limits::JerkLimits;
use crate::motions::{Motion, Setpoints};
use crate::rates::JerkRates;
use crate::taking::{downward, rises, sizes, upward};
use motion_numbers::{Counter, MOST_STEP};
use std::marker::Brand;
use std::sync::ledger::{Blank, Ledger};

/// Whether the three setpoints lie within the limits, and the axis can be stopped after them with
/// limited jerk.
pub fn is_kept(limits: &JerkLimits, at: &Setpoints) -> bool
    requires limits { AreJerkLimits limits.now }
    ensures { IsTrue result ↔ IsKeptByJerk limits.now at.now.first at.now.before at.now.current }
{
    is_kept_by::<Brand>(limits, at, Blank::new(1))
}

// The same for any ledger, whose counter nobody reads.
fn is_kept_by<L: Ledger>(limits: &JerkLimits, at: &Setpoints, blank: Blank) -> bool
    requires name { blank.name ≡ L.name }
    requires parts { blank.parts ≡ L.parts }
    requires some { 0 < blank.parts }
    requires limits { AreJerkLimits limits.now }
    ensures { IsTrue result ↔ IsKeptByJerk limits.now at.now.first at.now.before at.now.current }
{
    let mut looks = Counter::<L>::open(blank);
    is_kept_counted(limits, at, &mut looks)
}

/// The same, counted: at most one look at the way to rest.
pub fn is_kept_counted<L: Ledger>(
    limits: &JerkLimits,
    at: &Setpoints,
    looks: &mut Counter<L>,
) -> bool
    requires limits { AreJerkLimits limits.now }
    ensures value { IsTrue result ↔ IsKeptByJerk limits.now at.now.first at.now.before at.now.current }
    ensures cost { looks.new ≤ looks.old + 1 }
{
    if !is_within(limits, at) {
        return false;
    }
    if rises(at) {
        keeps_motion(&sizes(limits), &upward(limits, at), looks)
    } else if falls(at) {
        keeps_motion(&sizes(limits), &downward(limits, at), looks)
    } else {
        false
    }
}

// Whether the last setpoint lies within the limits.
fn is_within(limits: &JerkLimits, at: &Setpoints) -> bool
    ensures { IsTrue result ↔ ((limits.now.axis.lo ≤ℤ at.now.current) × (at.now.current ≤ℤ limits.now.axis.hi)) }
{
    limits.axis.lo <= at.current && at.current <= limits.axis.hi
}

// Whether the setpoints fall.
fn falls(at: &Setpoints) -> bool
    ensures { IsTrue result ↔ ((at.now.before ≤ℤ at.now.first) × (at.now.current ≤ℤ at.now.before)) }
{
    at.before <= at.first && at.current <= at.before
}

// Whether the motion is kept, whatever its speeds are.
fn keeps_motion<L: Ledger>(rates: &JerkRates, motion: &Motion, looks: &mut Counter<L>) -> bool
    requires rates { AreJerkRates rates.now }
    ensures cost { looks.new ≤ looks.old + 1 }
    ensures value { IsTrue result ↔ IsKeptBy rates.now motion.now.ahead motion.now.last motion.now.speed }
{
    if motion.last > 2 * MOST_STEP || motion.speed > MOST_STEP {
        return false;
    }
    keeps(rates, motion.ahead, motion.last, motion.speed, looks)
}
