// Numbers, texts and rates from the definition of the formats, one by one.

use fixed_units::*;
use std::str;
use std::test::Fail;

#[test]
fn reads_numbers(rt: HostRuntime) {
    let cases = [
        ("0", Ok(0)),
        ("-0", Ok(0)),
        ("-0.5", Ok(-500_000_000)),
        ("007.50", Ok(7_500_000_000)),
        ("0.000000001", Ok(1)),
        ("1000000000", Ok(1_000_000_000_000_000_000)),
        ("-1000000000.000000000", Ok(-1_000_000_000_000_000_000)),
        ("", Err(UnitFault::NotNumber)),
        ("-", Err(UnitFault::NotNumber)),
        ("1.", Err(UnitFault::NotNumber)),
        (".5", Err(UnitFault::NotNumber)),
        ("-.5", Err(UnitFault::NotNumber)),
        ("+1", Err(UnitFault::NotNumber)),
        ("--1", Err(UnitFault::NotNumber)),
        ("1.2.3", Err(UnitFault::NotNumber)),
        ("1.-2", Err(UnitFault::NotNumber)),
        (" 1", Err(UnitFault::NotNumber)),
        ("1e3", Err(UnitFault::NotNumber)),
        ("٣", Err(UnitFault::NotNumber)),
        ("99999999999999999999x", Err(UnitFault::NotNumber)),
        ("0.0000000001", Err(UnitFault::TooFine)),
        ("1.0000000000", Err(UnitFault::TooFine)),
        ("99999999999999999999.0000000000", Err(UnitFault::TooFine)),
        ("1000000001", Err(UnitFault::TooLarge)),
        ("-1000000000.000000001", Err(UnitFault::TooLarge)),
        ("99999999999999999999", Err(UnitFault::TooLarge)),
    ];
    for (text, units) in cases {
        assert_eq!(rt; read_units(text), units, "{text}");
    }
}

#[test]
fn writes_numbers(rt: HostRuntime) -> Result<(), Fail> {
    let cases = [
        (0, "0"),
        (1, "0.000000001"),
        (-1, "-0.000000001"),
        (1_000_000_000, "1"),
        (-1_000_000_000, "-1"),
        (1_500_000_000, "1.5"),
        (-1_500_000_000, "-1.5"),
        (10_020_000_000, "10.02"),
        (1_000_000_000_000_000_000, "1000000000"),
        (-1_000_000_000_000_000_000, "-1000000000"),
        (i64::MAX, "9223372036.854775807"),
        (i64::MIN, "-9223372036.854775808"),
    ];
    let mut text = Text40::new();
    for (units, number) in cases {
        write_units(units, &mut text);
        assert_eq!(rt; str::from_utf8(text.bytes())?, number, "{units}");
    }
    Ok(())
}

#[test]
fn turns_rates_into_steps(rt: HostRuntime) {
    // Units per second, per second squared or cubed, the cycle in microseconds, the step, its change
    // and the jerk.
    let cases = [
        (500_000_000_000, 1_000, 500_000_000, 500_000, 500),
        (2_000_000_000_000, 1_000, 2_000_000_000, 2_000_000, 2_000),
        (
            -2_000_000_000_999,
            1_000,
            -2_000_000_000,
            -2_000_000,
            -2_000,
        ),
        (0, 100, 0, 0, 0),
        (9_999, 100, 0, 0, 0),
        (-9_999, 100, 0, 0, 0),
        (10_000, 100, 1, 0, 0),
        (-19_999, 100, -1, 0, 0),
        (
            1_000_000_000_000_000_000,
            100_000,
            100_000_000_000_000_000,
            10_000_000_000_000_000,
            1_000_000_000_000_000,
        ),
        (
            -1_000_000_000_000_000_000,
            100_000,
            -100_000_000_000_000_000,
            -10_000_000_000_000_000,
            -1_000_000_000_000_000,
        ),
    ];
    for (value, cycle_us, step, change, jerk) in cases {
        assert!(rt; (-1_000_000_000_000_000_000..=1_000_000_000_000_000_000).contains(&value));
        assert!(rt; 100 <= cycle_us && cycle_us <= 100_000);
        assert_eq!(rt; per_cycle(value, cycle_us), step, "{value} in {cycle_us}");
        assert_eq!(rt;
            per_cycle2(value, cycle_us),
            change,
            "{value} in {cycle_us}"
        );
        assert_eq!(rt; per_cycle3(value, cycle_us), jerk, "{value} in {cycle_us}");
    }
}
