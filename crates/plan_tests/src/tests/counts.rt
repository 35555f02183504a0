// Places of an axis and their counts in a drive, also at the ends of their ranges.

use plc_types::{place, target_count};

// With increment 4 and lowest place -5: -8 lies less than an increment below it, -9 does not.
#[test]
fn the_lowest_place_stands_for_what_lies_just_below_it(rt: HostRuntime) {
    let cases = [
        (-3, 0, -12),
        (-2, 0, -5),
        (-1, 0, -4),
        (0, 0, 0),
        (-2, -1, -9),
        (-2, 2, -5),
    ];
    for (count, offset, want) in cases {
        assert_eq!(rt;
            place(-5, count, offset, 4),
            want,
            "count {count} at offset {offset}"
        );
    }
}

// Setpoint 10 after a homing by 10 has the count of 0; below the offset the count is rounded down.
#[test]
#[tactic(auto, unfolding(plc_types::specs::Counts::count_of))]
fn targets_are_rounded_down_from_the_offset(rt: HostRuntime) {
    assert_eq!(rt; target_count(10, 10, 1), 0);
    assert_eq!(rt; target_count(7, 0, 4), 1);
    assert_eq!(rt; target_count(-5, 0, 4), -2);
    assert_eq!(rt; target_count(-8, 0, 4), -2);
    assert_eq!(rt;
        target_count(2_147_483_647_999_999_999, 0, 1_000_000_000),
        i32::MAX
    );
    assert_eq!(rt;
        target_count(-2_147_483_648_000_000_000, 0, 1_000_000_000),
        i32::MIN
    );
}
