// How many cycles moves take at most, and a step that is counted.

ghost use Rattle.std.specs.Prelude.{◌≡◌, ◌<◌};
ghost use Rattle.command_pool.specs.Rates.{AreRates};

use super::{RATES, expect_rates, rates};
use command_pool::Rates;
use ramp_root::Counter;
use std::marker::Brand;
use std::sync::ledger::{Blank, Ledger};
use trapezoid_plan::{cycles_bound, move_step_counted};

// The bounds: one cycle to slow, three to speed up, four to cruise, three to brake, three more.
#[test]
fn bounds_the_cycles(rt: HostRuntime) {
    for (distance, old, rates, want) in [
        (20, 0, rates(6, 2, 2), 14),
        (-20, 0, rates(6, 2, 2), 14),
        (0, 0, rates(1, 1, 1), 6),
        (0, 6, rates(6, 2, 2), 15),
        (
            2_000_000_000_000_000,
            10_000_000_000,
            rates(1, 1, 1),
            2_000_010_000_000_006,
        ),
    ] {
        expect_rates(&rt, &rates);
        assert_eq!(rt;
            cycles_bound(distance, old, &rates),
            want,
            "{rates:?} at {distance}, {old}"
        );
    }
}

// A step in a ledger of any name.
fn counted<L: Ledger>(blank: Blank, rates: &Rates) -> i64
    requires name { blank.name ≡ L.name }
    requires parts { blank.parts ≡ L.parts }
    requires some { 0 < blank.parts }
    requires rates { AreRates rates.now }
{
    let mut steps = Counter::<L>::open(blank);
    move_step_counted(4, 6, rates, &mut steps)
}

#[test]
fn counts_steps(rt: HostRuntime) {
    expect_rates(&rt, &RATES);
    assert_eq!(rt; counted::<Brand>(Blank::new(1), &RATES), 4);
}
