// What no clause says, by subject: each test says in its name what it shows. Here stands what the
// worked values of the plans share.

ghost use Rattle.std.specs.Prelude.{IsTrue};
ghost use Rattle.plc_types.specs.Limits.{AreLimits};
ghost use Rattle.kin_core.specs.Admissible.{IsKept};
ghost use Rattle.command_pool.specs.Rates.{AreRates};

use command_pool::Rates;
use kin_core::{nearest_safe, stoppable};
use plc_types::Limits;
use std::process::Abort;

mod blends;
mod cams;
mod counts;
mod declarations;
mod followers;
mod grammar;
mod interfaces;
mod lines;
mod moves;
mod queues;
mod roots;
mod standard_blocks;
mod steps;
mod units;
mod values;

// The limits of the worked axes.
const LIMITS: Limits = Limits {
    lo: 0,
    hi: 50,
    vmax: 10,
    amax: 4,
    dmax: 4,
};

const RATES: Rates = Rates { v: 6, a: 2, d: 2 };

fn rates(v: i64, a: i64, d: i64) -> Rates {
    Rates { v, a, d }
}

// Stops the test where the limits are out of range.
fn expect_limits(rt: &impl Abort, limits: &Limits)
    ensures { AreLimits limits.now }
{
    assert!(rt; -1_000_000_000_000_000 <= limits.lo);
    assert!(rt; limits.lo <= limits.hi);
    assert!(rt; limits.hi <= 1_000_000_000_000_000);
    assert!(rt; 1 <= limits.vmax);
    assert!(rt; limits.vmax <= 10_000_000_000);
    assert!(rt; 1 <= limits.amax);
    assert!(rt; limits.amax <= limits.dmax);
    assert!(rt; limits.dmax <= 10_000_000_000);
}

// Stops the test where the rates are out of range.
fn expect_rates(rt: &impl Abort, rates: &Rates)
    ensures { AreRates rates.now }
{
    assert!(rt; 1 <= rates.v);
    assert!(rt; rates.v <= 10_000_000_000);
    assert!(rt; 1 <= rates.a);
    assert!(rt; rates.a <= 10_000_000_000);
    assert!(rt; 1 <= rates.d);
    assert!(rt; rates.d <= 10_000_000_000);
}

// Whether the pair is stoppable; stops the test where it is out of range.
fn can_stop(rt: &impl Abort, limits: &Limits, before: i64, now: i64) -> bool
    ensures { IsTrue result → IsKept limits.now before now }
{
    expect_limits(rt, limits);
    assert!(rt; limits.lo <= now);
    assert!(rt; now <= limits.hi);
    assert!(rt; now.abs_diff(before) <= limits.vmax.unsigned_abs());
    stoppable(limits, before, now)
}

// The step that is taken at a pair that can stop.
fn taken(rt: &impl Abort, limits: &Limits, before: i64, now: i64, wanted: i64) -> i64 {
    expect_limits(rt, limits);
    assert!(rt; can_stop(rt, limits, before, now));
    assert!(rt; wanted.unsigned_abs() <= 4_000_000_000_000_000);
    nearest_safe(limits, before, now, wanted)
}
