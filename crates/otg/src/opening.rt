// Whether a generator is open, and opening it.

ghost use Rattle.std.specs.Prelude.{◌≡◌, ◌≢◌, ◌↔◌, IsTrue, ◌+◌, ◌≤◌, pos, ◌≤ℤ◌};
ghost use Rattle.jerk_core.specs.Rates.{AreJerkRates};
ghost use Rattle.otg.specs.Open.{AreLimitsOf, ArePlaces, AreGains, IsCommandOf, IsTargetOf, IsOpen, resting_of};

use crate::generator::{Otg, limits, own_rates, setpoints};
use jerk_core::{Counter, JerkRates, is_kept, is_kept_counted};
use motion_numbers::{MOST_PLACE, MOST_STEP};
use std::sync::ledger::Ledger;

/// What a call answers: what was asked was done.
pub const OK: u32 = 0;

/// What a call answers where it does nothing: the generator isn't open, or a number isn't in its
/// range.
pub const INVALID: u32 = 1;

/// Opens a generator, whose limits the caller has filled, at rest at a setpoint, with a halt.
#[unsafe(no_mangle)]
pub extern "C" fn otg_open(otg: &mut Otg, setpoint: i64) -> u32
    ensures code { (result ≡ 0) ↔ IsOpen (resting_of otg.old setpoint) }
    ensures opened { result ≡ 0 → IsOpen otg.new }
    ensures at { result ≡ 0 → otg.new ≡ resting_of otg.old setpoint }
    ensures codes { result ≤ 1 }
    ensures same { result ≢ 0 → otg.new ≡ otg.old }
{
    let resting = resting(otg, setpoint);
    if !is_open(&resting) {
        return INVALID;
    }
    *otg = resting;
    OK
}

// The generator at rest at a setpoint, with a halt by its limits.
fn resting(otg: &Otg, setpoint: i64) -> Otg
    ensures { result ≡ resting_of otg.now setpoint }
{
    Otg {
        first: setpoint,
        before: setpoint,
        current: setpoint,
        target: setpoint,
        v: otg.vmax.unsigned_abs(),
        a: otg.amax.unsigned_abs(),
        d: otg.dmax.unsigned_abs(),
        j: otg.jmax.unsigned_abs(),
        kind: 0,
        ..*otg
    }
}

/// Whether the generator is open: 1 where it is, else 0.
#[unsafe(no_mangle)]
pub extern "C" fn otg_is_open(otg: &Otg) -> u32
    ensures opened { (result ≡ 1) ↔ IsOpen otg.now }
    ensures codes { result ≤ 1 }
{
    if is_open(otg) { 1 } else { 0 }
}

// Whether the generator is open.
pub(crate) fn is_open(otg: &Otg) -> bool
    ensures { IsTrue result ↔ IsOpen otg.now }
{
    are_limits(otg) && is_command(otg) && is_kept(&limits(otg), &setpoints(otg))
}

// The same, with its look at the way to rest counted.
pub(crate) fn is_open_counted<L: Ledger>(otg: &Otg, looks: &mut Counter<L>) -> bool
    ensures value { IsTrue result ↔ IsOpen otg.now }
    ensures cost { looks.new ≤ looks.old + 1 }
{
    if !are_limits(otg) {
        return false;
    }
    if !is_command(otg) {
        return false;
    }
    is_kept_counted(&limits(otg), &setpoints(otg), looks)
}

// Whether the limits are in their ranges.
pub(crate) fn are_limits(otg: &Otg) -> bool
    ensures { IsTrue result ↔ AreLimitsOf otg.now }
{
    if !has_places(otg) {
        return false;
    }
    if !has_speed(otg) {
        return false;
    }
    if !has_gains(otg) {
        return false;
    }
    has_jerk(otg)
}

// Whether the limits of setpoints are in their ranges.
fn has_places(otg: &Otg) -> bool
    ensures { IsTrue result ↔ ArePlaces otg.now.lo otg.now.hi }
{
    otg.lo.unsigned_abs() <= MOST_PLACE && otg.lo <= otg.hi && otg.hi.unsigned_abs() <= MOST_PLACE
}

// Whether the greatest step is in its range.
fn has_speed(otg: &Otg) -> bool
    ensures { IsTrue result ↔ ((pos 1 ≤ℤ otg.now.vmax) × (otg.now.vmax ≤ℤ pos MOST_STEP)) }
{
    1 <= otg.vmax && otg.vmax <= MOST_STEP as i64
}

// Whether the limits of the changes of speed are in their ranges.
fn has_gains(otg: &Otg) -> bool
    ensures { IsTrue result ↔ AreGains otg.now.amax otg.now.dmax }
{
    1 <= otg.amax && otg.amax <= otg.dmax && otg.dmax <= MOST_STEP as i64
}

// Whether the limit of jerk is in its range.
fn has_jerk(otg: &Otg) -> bool
    ensures { IsTrue result ↔ ((pos 2 ≤ℤ otg.now.jmax) × (otg.now.jmax ≤ℤ pos MOST_STEP)) }
{
    2 <= otg.jmax && otg.jmax <= MOST_STEP as i64
}

// Whether the command is in its ranges.
pub(crate) fn is_command(otg: &Otg) -> bool
    ensures { IsTrue result ↔ IsCommandOf otg.now }
{
    are_rates(&own_rates(otg)) && is_target(otg)
}

// Whether the rates are in their ranges.
fn are_rates(rates: &JerkRates) -> bool
    ensures { IsTrue result ↔ AreJerkRates rates.now }
{
    1 <= rates.v
        && rates.v <= MOST_STEP
        && 1 <= rates.a
        && rates.a <= MOST_STEP
        && 1 <= rates.d
        && rates.d <= MOST_STEP
        && 2 <= rates.j
        && rates.j <= MOST_STEP
}

// Whether the target is in its range, by the kind of command.
fn is_target(otg: &Otg) -> bool
    ensures { IsTrue result ↔ IsTargetOf otg.now }
{
    let most = if otg.kind == 2 { MOST_STEP } else { MOST_PLACE };
    otg.target.unsigned_abs() <= most
}
