// Steps of blended moves at the ends of their ranges, and one that is counted.

ghost use Rattle.std.specs.Prelude.{◌≡◌, ◌<◌};
ghost use Rattle.command_pool.specs.Rates.{AreRates};

use super::{expect_rates, rates};
use blend_plan::{blend_step, blend_step_counted};
use command_pool::Rates;
use ramp_root::Counter;
use std::marker::Brand;
use std::process::Abort;
use std::sync::ledger::{Blank, Ledger};

// Where the targets and the old step lie, counted in the direction from the first target to the
// second.
#[derive(Clone, Copy, Debug)]
struct Ways {
    l1: i64,
    l2: i64,
    old: i64,
}

// The blend step; stops the test where a number is out of range.
fn blended(rt: &impl Abort, ways: &Ways, first: &Rates, second: &Rates, vb: i64) -> (i64, bool) {
    expect_rates(rt, first);
    expect_rates(rt, second);
    let Ways { l1, l2, old } = *ways;
    assert!(rt; 0 <= l1 && l1 < l2 && l2 <= 2_000_000_000_000_000);
    assert!(rt; 0 <= old && old <= 10_000_000_000);
    assert!(rt; 1 <= vb && vb <= 10_000_000_000);
    blend_step(l1, l2, old, first, second, vb)
}

// The ends of the ranges: nothing but braking is left; the first move goes on; the first target
// is where the axis is; and the step from which 200,003 cycles speed up to the blend velocity.
#[test]
fn takes_the_ends_of_the_ranges(rt: HostRuntime) {
    let most = 10_000_000_000;
    let far = 2_000_000_000_000_000;
    let slow = rates(1, 1, 1);
    let fast = rates(most, most, most);
    let hard = rates(1, 1, most);
    for (l1, l2, old, first, second, vb, want) in [
        (0, 1, most, slow, slow, 1, (most - 1, false)),
        (far - 1, far, most, fast, fast, most, (most, false)),
        (0, far, most, hard, fast, most, (most, true)),
        (far - 1, far, most, hard, fast, most, (9_999_799_998, false)),
    ] {
        let ways = Ways { l1, l2, old };
        assert_eq!(rt; blended(&rt, &ways, &first, &second, vb), want, "{ways:?}");
    }
}

// A step in a ledger of any name.
fn counted<L: Ledger>(blank: Blank, first: &Rates, second: &Rates) -> (i64, bool)
    requires name { blank.name ≡ L.name }
    requires parts { blank.parts ≡ L.parts }
    requires some { 0 < blank.parts }
    requires first_rates { AreRates first.now }
    requires second_rates { AreRates second.now }
{
    let mut steps = Counter::<L>::open(blank);
    blend_step_counted(2, 22, 6, first, second, 6, &mut steps)
}

#[test]
fn counts_steps(rt: HostRuntime) {
    let (first, second) = (rates(6, 2, 2), rates(3, 2, 2));
    expect_rates(&rt, &first);
    expect_rates(&rt, &second);
    assert_eq!(rt; counted::<Brand>(Blank::new(1), &first, &second), (6, true));
}
