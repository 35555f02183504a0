// Lines with the numbers of worked cases.

ghost use Rattle.std.specs.Prelude.{◌≡◌};
ghost use Rattle.linear_path.specs.Line.{AreInRange};
ghost use Rattle.linear_path.specs.Path.{AreAxisLimits};

use linear_path::{LinePath, Path, path_limits};
use plc_types::Limits;
use std::process::Abort;

const FAR: i64 = 1_000_000_000_000_000;

const FAST: (i64, i64, i64) = (10_000_000_000, 10_000_000_000, 10_000_000_000);

// Stops the test where a coordinate is out of range.
fn expect_in_range(rt: &impl Abort, coordinates: &[i64])
    ensures { AreInRange coordinates.now }
{
    for coordinate in coordinates {
        assert!(rt; coordinate.unsigned_abs() <= 1_000_000_000_000_000);
    }
}

// A line of two axes, the others at rest at 0.
fn line_of_two(rt: &impl Abort, starts: (i64, i64), targets: (i64, i64)) -> LinePath
    ensures { result.count ≡ 2 }
{
    let starts = [starts.0, starts.1, 0, 0, 0, 0];
    let targets = [targets.0, targets.1, 0, 0, 0, 0];
    expect_in_range(rt, &starts);
    expect_in_range(rt, &targets);
    LinePath {
        count: 2,
        starts,
        targets,
    }
}

// The limits of an axis, whose rates are given.
fn axis(rt: &impl Abort, rates: (i64, i64, i64)) -> Limits
    ensures { AreAxisLimits result }
{
    let (vmax, amax, dmax) = rates;
    assert!(rt; 1 <= vmax);
    assert!(rt; vmax <= 10_000_000_000);
    assert!(rt; 2 <= amax);
    assert!(rt; amax <= dmax);
    assert!(rt; dmax <= 10_000_000_000);
    Limits {
        lo: -FAR,
        hi: FAR,
        vmax,
        amax,
        dmax,
    }
}

// Where an axis stands at a place; stops the test where there is no such axis or place.
fn place(rt: &impl Abort, line: &LinePath, axis: u8, s: i64) -> i64 {
    assert!(rt; axis < line.axes());
    assert!(rt; 0 <= s);
    assert!(rt; s <= line.length());
    line.place(axis, s)
}

#[test]
fn stands_at_places(rt: HostRuntime) {
    let cases = [
        ((5, 5), (5, 5), 0, (5, 5)),
        ((5, -7), (5, 3), 4, (5, -3)),
        ((0, 0), (10, -10), 7, (7, -7)),
        ((0, 0), (3, -2), 1, (1, 0)),
        ((0, 0), (3, -2), 2, (2, -1)),
        ((-FAR, FAR), (FAR, -FAR), FAR, (0, 0)),
        ((-FAR, FAR), (FAR, 1 - FAR), 1, (1 - FAR, FAR)),
        ((-FAR, FAR), (FAR, 1 - FAR), 2, (2 - FAR, FAR - 1)),
    ];
    for (starts, targets, s, (x, y)) in cases {
        let line = line_of_two(&rt, starts, targets);
        assert_eq!(rt; place(&rt, &line, 0, s), x, "{line:?} at {s}");
        assert_eq!(rt; place(&rt, &line, 1, s), y, "{line:?} at {s}");
    }
}

#[test]
fn limits_the_path(rt: HostRuntime) {
    // The targets from 0, the rates of both axes, and the path's length and rates.
    let cases = [
        ((30, 10), (10, 4, 4), (10, 4, 4), (30, 10, 4, 4)),
        ((30, 30), (10, 4, 6), (7, 5, 5), (30, 7, 4, 5)),
        ((0, 0), (10, 4, 4), (10, 4, 4), (0, 1, 1, 1)),
        ((0, -12), (1, 2, 2), (9, 5, 8), (12, 9, 5, 8)),
        ((30, 20), (10, 4, 8), (5, 2, 3), (30, 7, 1, 3)),
        ((7, -5), (100, 50, 60), (9, 9, 10), (7, 12, 11, 12)),
        ((FAR, 1), FAST, (1, 2, 2), (FAR, FAST.0, FAST.1, FAST.2)),
        (
            (FAR, FAR - 1),
            FAST,
            FAST,
            (FAR, FAST.0, FAST.1 - 1, FAST.2 - 1),
        ),
    ];
    for (targets, x, y, rates) in cases {
        let line = line_of_two(&rt, (0, 0), targets);
        let (hi, vmax, amax, dmax) = rates;
        let limits = Limits {
            lo: 0,
            hi,
            vmax,
            amax,
            dmax,
        };
        assert_eq!(rt;
            limits_of_two(&rt, &line, x, y),
            limits,
            "{line:?}, {x:?}, {y:?}"
        );
    }
}

// The limits of a path of two axes of these rates.
fn limits_of_two(rt: &impl Abort, line: &LinePath, x: (i64, i64, i64), y: (i64, i64, i64)) -> Limits
    requires { line.now.count ≡ 2 }
{
    path_limits(line, &[axis(rt, x), axis(rt, y)])
}

#[test]
fn limits_the_longest_path(rt: HostRuntime) {
    let line = line_of_two(&rt, (-FAR, FAR), (FAR, -FAR));
    let limits = Limits {
        lo: 0,
        hi: 2 * FAR,
        vmax: 10_000_000_000,
        amax: 9,
        dmax: 10_000_000_000,
    };
    assert_eq!(rt;
        limits_of_two(&rt, &line, FAST, (10_000_000_000, 9, 10_000_000_000)),
        limits
    );
}
