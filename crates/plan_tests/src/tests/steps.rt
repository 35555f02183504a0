// Small limits compared with a plain search over all setpoints, and sums of ways to rest.

use super::{LIMITS, can_stop, taken};
use kin_core::{greatest_ramp, run_sum};
use plc_types::Limits;
use std::process::Abort;

#[test]
fn takes_the_nearest_safe_step(rt: HostRuntime) {
    let limits = Limits { dmax: 8, ..LIMITS };
    for (before, now, wanted, step) in [(20, 23, -9, -1), (20, 30, -9, 2)] {
        assert_eq!(rt;
            taken(&rt, &limits, before, now, wanted),
            step,
            "at {before}, {now}"
        );
    }
}

// Whether `next` may come after `before` and `now`, counted in the direction of the last step.
fn may_come(limits: &Limits, before: i64, now: i64, next: i64) -> bool {
    let last = now.wrapping_sub(before);
    let step = next.wrapping_sub(now);
    let (old, new) = if last < 0 {
        (last.wrapping_neg(), step.wrapping_neg())
    } else {
        (last, step)
    };
    let least = old
        .wrapping_sub(limits.dmax)
        .max(old.wrapping_sub(limits.amax).min(0));
    let placed = limits.lo <= next && next <= limits.hi;
    let slow = step.unsigned_abs() <= limits.vmax.unsigned_abs();
    placed && slow && least <= new && new <= old.wrapping_add(limits.amax)
}

// Whether some list of at most this many setpoints goes on admissibly and ends with the same twice.
fn stops_by_search(limits: &Limits, before: i64, now: i64, setpoints: u32) -> bool {
    if setpoints == 0 {
        return false;
    }
    for next in limits.lo..=limits.hi {
        if may_come(limits, before, now, next)
            && (next == now || stops_by_search(limits, now, next, setpoints - 1))
        {
            return true;
        }
    }
    false
}

// The safe step nearest to the wanted one, among all steps.
fn nearest_by_search(limits: &Limits, before: i64, now: i64, wanted: i64) -> Option<i64> {
    let mut nearest = None;
    for next in limits.lo..=limits.hi {
        let step = next.wrapping_sub(now);
        let safe = may_come(limits, before, now, next)
            && stops_by_search(limits, now, next, SETPOINTS);
        if safe && nearest.is_none_or(|best: i64| step.abs_diff(wanted) < best.abs_diff(wanted)) {
            nearest = Some(step);
        }
    }
    nearest
}

// More setpoints than braking takes in the small limits.
const SETPOINTS: u32 = 5;

#[test]
fn agrees_with_a_search_over_all_setpoints(rt: HostRuntime) {
    let small = [
        (0, 0, 1, 1, 1),
        (0, 6, 3, 1, 1),
        (-2, 4, 4, 1, 2),
        (0, 7, 4, 2, 3),
        (-3, 5, 5, 2, 2),
        (0, 6, 4, 1, 4),
    ];
    for (lo, hi, vmax, amax, dmax) in small {
        let limits = Limits {
            lo,
            hi,
            vmax,
            amax,
            dmax,
        };
        for now in limits.lo..=limits.hi {
            for last in -6..7 {
                let before = now.wrapping_sub(last);
                if last.unsigned_abs() <= limits.vmax.unsigned_abs() {
                    let found = stops_by_search(&limits, before, now, SETPOINTS);
                    assert_eq!(rt;
                        can_stop(&rt, &limits, before, now),
                        found,
                        "{limits:?} at {before}, {now}"
                    );
                    if found {
                        compare_steps(&rt, &limits, before, now);
                    }
                }
            }
        }
    }
}

fn compare_steps(rt: &impl Abort, limits: &Limits, before: i64, now: i64) {
    for wanted in -8..9 {
        let step = Some(taken(rt, limits, before, now, wanted));
        let found = nearest_by_search(limits, before, now, wanted);
        assert_eq!(rt;
            step,
            found,
            "{limits:?} at {before}, {now}, wanted {wanted}"
        );
    }
}

#[test]
fn adds_up_the_way_to_rest(rt: HostRuntime) {
    let cases = [
        (-5, 3, 0),
        (0, 1, 0),
        (3, 4, 3),
        (10, 4, 18),
        (10, 8, 12),
        (8, 4, 12),
        (10_000_000_000, 1, 50_000_000_005_000_000_000),
    ];
    for (u, d, sum) in cases {
        assert!(rt; u <= 10_000_000_000 && -10 < u && 1 <= d && d < 10);
        assert_eq!(rt; run_sum(u, d), sum, "{u} braking by {d}");
    }
}

#[test]
fn finds_the_greatest_step_whose_way_fits(rt: HostRuntime) {
    for (room, most, step) in [
        (18, 10, 10),
        (17, 10, 9),
        (17, 8, 8),
        (1, 10, 1),
        (0, 10, 0),
    ] {
        assert!(rt; most <= 10);
        assert_eq!(rt;
            greatest_ramp(room, 4, most),
            step,
            "room {room}, at most {most}"
        );
    }
}
