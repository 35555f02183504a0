// Worked values of the root and of the greatest count, also at the ends of their ranges.

ghost use Rattle.std.specs.Prelude.{◌≡◌, ◌<◌};

use ramp_root::{Counter, fits, greatest_count, greatest_count_counted, root};
use std::marker::Brand;
use std::sync::ledger::{Blank, Ledger};

#[test]
fn takes_roots(rt: HostRuntime) {
    for (n, want) in [
        (0, 0),
        (1, 1),
        (15, 3),
        (16, 4),
        (1_000_000_000_000_000_000_000_000, 1_000_000_000_000),
        ((1 << 120) - 1, (1 << 60) - 1),
    ] {
        assert!(rt; n < 1 << 120);
        assert_eq!(rt; root(n), want, "the root of {n}");
    }
}

#[test]
fn counts_terms(rt: HostRuntime) {
    for (l, d, r, want) in [
        (10, 4, 1, 2),
        (0, 1, 1, 0),
        (3, 4, 4, 0),
        (2_000_000_000_000_000, 10_000_000_000, 1, 632),
        ((1 << 70) - 1, 1, 1, 48_592_007_999),
        ((1 << 70) - 1, 1 << 40, 1 << 40, 46_340),
        ((1 << 70) - 1, 1, 1 << 40, 1_073_218_047),
    ] {
        assert!(rt; l < 1 << 70 && 0 < d && d <= 1 << 40 && 0 < r && r <= 1 << 40);
        assert_eq!(rt; greatest_count(l, d, r), want, "at {l}, {d}, {r}");
    }
}

// What the counted forms answer of ten, in a ledger of any name.
fn counted<L: Ledger>(blank: Blank) -> (bool, bool, u64)
    requires name { blank.name ≡ L.name }
    requires parts { blank.parts ≡ L.parts }
    requires some { 0 < blank.parts }
{
    let mut steps = Counter::<L>::open(blank);
    let two = fits(2, 10, 4, 1, &mut steps);
    let three = fits(3, 10, 4, 1, &mut steps);
    (two, three, greatest_count_counted(10, 4, 1, &mut steps))
}

#[test]
fn counts_steps(rt: HostRuntime) {
    assert_eq!(rt; counted::<Brand>(Blank::new(1)), (true, false, 2));
}
