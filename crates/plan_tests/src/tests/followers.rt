// A geared follower and a straight line, cycle by cycle.

ghost use Rattle.std.specs.Prelude.{◌≡◌};
ghost use Rattle.linear_path.specs.Path.{AreAxisLimits};

use super::{LIMITS, RATES, expect_rates, taken};
use command_pool::Rates;
use follow_plan::{gear_difference, gear_toward};
use linear_path::{LinePath, Path, path_limits};
use plc_types::Limits;
use std::process::Abort;
use trapezoid_plan::{move_step, velocity_step};

// An axis, or a path, and where it stands.
#[derive(Clone, Copy)]
struct Axis {
    limits: Limits,
    previous: i64,
    setpoint: i64,
}

// The axis a cycle later, when this step is wanted.
fn stepped(rt: &impl Abort, axis: &Axis, wanted: i64) -> Axis {
    let step = taken(rt, &axis.limits, axis.previous, axis.setpoint, wanted);
    Axis {
        limits: axis.limits,
        previous: axis.setpoint,
        setpoint: axis.setpoint.wrapping_add(step),
    }
}

// The axis a cycle nearer to its target.
fn moved(rt: &impl Abort, axis: &Axis, target: i64, rates: &Rates) -> Axis {
    expect_rates(rt, rates);
    let distance = target.wrapping_sub(axis.setpoint);
    let old = axis.setpoint.wrapping_sub(axis.previous);
    assert!(rt; distance.unsigned_abs() <= 2_000_000_000_000_000);
    assert!(rt; old.unsigned_abs() <= 10_000_000_000);
    stepped(rt, axis, move_step(distance, old, rates))
}

// The axis a cycle later, geared at 1:2 to a master that went from one setpoint to another.
fn geared(rt: &impl Abort, axis: &Axis, m0: i64, m1: i64, rates: &Rates) -> Axis {
    expect_rates(rt, rates);
    let old = axis.setpoint.wrapping_sub(axis.previous);
    assert!(rt; old.unsigned_abs() <= 10_000_000_000);
    assert!(rt; 0 <= axis.limits.vmax);
    let toward = gear_toward(gear_difference(m0, m1, 1, 2), axis.limits.vmax);
    assert!(rt; toward.unsigned_abs() <= 10_000_000_000);
    stepped(rt, axis, velocity_step(toward, old, rates))
}

// A master moves to 20; the follower, geared at 1:2, goes by the master's step of the cycle before.
#[test]
fn follows_a_geared_master(rt: HostRuntime) {
    let standing = Axis {
        limits: LIMITS,
        previous: 0,
        setpoint: 0,
    };
    let mut master = standing;
    let mut follower = standing;
    let setpoints = [
        (2, 0),
        (6, 1),
        (12, 3),
        (16, 6),
        (19, 8),
        (20, 9),
        (20, 10),
        (20, 10),
    ];
    for (x, y) in setpoints {
        follower = geared(&rt, &follower, master.previous, master.setpoint, &RATES);
        master = moved(&rt, &master, 20, &RATES);
        assert_eq!(rt; master.setpoint, x);
        assert_eq!(rt; follower.setpoint, y, "at {x}");
    }
}

// The line of two axes from 0, 0 to 30, 10.
fn line() -> LinePath
    ensures { result.count ≡ 2 }
{
    LinePath {
        count: 2,
        starts: [0, 0, 0, 0, 0, 0],
        targets: [30, 10, 0, 0, 0, 0],
    }
}

// The worked axes' limits, as those of an axis of a group.
fn axis_limits(rt: &impl Abort) -> Limits
    ensures { AreAxisLimits result }
{
    let limits = LIMITS;
    assert!(rt; -1_000_000_000_000_000 <= limits.lo);
    assert!(rt; limits.lo < limits.hi);
    assert!(rt; limits.hi <= 1_000_000_000_000_000);
    assert!(rt; 1 <= limits.vmax);
    assert!(rt; limits.vmax <= 10_000_000_000);
    assert!(rt; 2 <= limits.amax);
    assert!(rt; limits.amax <= limits.dmax);
    assert!(rt; limits.dmax <= 10_000_000_000);
    limits
}

// Where an axis stands at a place; stops the test where there is no such axis or place.
fn place(rt: &impl Abort, line: &LinePath, axis: u8, s: i64) -> i64 {
    assert!(rt; axis < line.axes());
    assert!(rt; 0 <= s);
    assert!(rt; s <= line.length());
    line.place(axis, s)
}

// Two axes go along a line by 6, 2, 2: the path moves as an axis does, and each axis stands at its
// place.
#[test]
fn goes_along_a_line(rt: HostRuntime) {
    let line = line();
    let limits = path_limits(&line, &[axis_limits(&rt), axis_limits(&rt)]);
    let mut path = Axis {
        limits,
        previous: 0,
        setpoint: 0,
    };
    let setpoints = [
        (2, 0),
        (6, 2),
        (12, 4),
        (18, 6),
        (24, 8),
        (28, 9),
        (30, 10),
        (30, 10),
    ];
    let rates = Rates {
        v: RATES.v.min(limits.vmax),
        a: RATES.a.min(limits.amax),
        d: RATES.d.min(limits.dmax),
    };
    for (x, y) in setpoints {
        path = moved(&rt, &path, line.length(), &rates);
        assert_eq!(rt; place(&rt, &line, 0, path.setpoint), x);
        assert_eq!(rt; place(&rt, &line, 1, path.setpoint), y, "at {x}");
    }
}
