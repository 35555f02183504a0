// What operators and functions of Structured Text make of values.

use iec_values::{
    Change, Elementary, Operation, Operator, apply, call_of, changed, evaluate, function_named,
    join_of, storing, widening,
};

// What a function of this name makes of arguments of these types.
fn called(name: &str, types: &[Elementary], values: &[i64]) -> Option<i64> {
    let function = function_named(name.as_bytes())?;
    let call = call_of(function, types)?;
    Some(evaluate(call.manner, values))
}

#[test]
fn operations_wrap_end_and_divide_toward_zero(rt: HostRuntime) {
    for (operation, a, b, want) in [
        (Operation::DintPlus, 2_147_483_647, 1, -2_147_483_648),
        (Operation::DintPlus, 32_767, 1, 32_768),
        (Operation::DintTimes, 65_536, 65_537, 65_536),
        (Operation::DintOver, -7, 2, -3),
        (Operation::DintOver, -2_147_483_648, -1, -2_147_483_648),
        (Operation::DintOver, 7, 0, 0),
        (Operation::DintMod, -7, 3, -1),
        (Operation::DintMod, 7, -3, 1),
        (Operation::DintMod, 7, 0, 0),
        (Operation::LrealPlus, i64::MAX, 1, i64::MAX),
        (Operation::LrealMinus, -i64::MAX, 1, -i64::MAX),
        (
            Operation::LrealTimes,
            1_500_000_000,
            -1_000_000_001,
            -1_500_000_001,
        ),
        (
            Operation::LrealOver,
            -2_000_000_000,
            3_000_000_000,
            -666_666_666,
        ),
        (Operation::LrealOver, 1_000_000_000, 0, 0),
        (
            Operation::TimePlus,
            1_000_000_000_000_000,
            1,
            1_000_000_000_000_000,
        ),
        (Operation::TimeTimes, 1_000_000, 3, 3_000_000),
        (
            Operation::TimeTimes,
            -1_000_000_000_000,
            2_000,
            -1_000_000_000_000_000,
        ),
        (Operation::TimeOver, -1_000_000, 3, -333_333),
        (Operation::TimeOver, 1_000_000, 0, 0),
        (Operation::Xor, 1, 1, 0),
    ] {
        assert_eq!(rt; apply(operation, a, b), want, "{a} and {b}");
    }
}

#[test]
fn ints_wrap_where_they_are_stored(rt: HostRuntime) {
    let kept = widening(Elementary::Int, Elementary::Dint);
    let stored = storing(Elementary::Int, Elementary::Int);
    assert_eq!(rt; kept.map(|change| changed(change, 33_000)), Some(33_000));
    assert_eq!(rt; stored.map(|change| changed(change, 33_000)), Some(-32_536));
    assert!(rt; storing(Elementary::Dint, Elementary::Int).is_none());
    assert_eq!(rt; changed(Change::DintMinus, -2_147_483_648), -2_147_483_648);
}

#[test]
fn operators_are_for_their_types(rt: HostRuntime) {
    for (operator, left, right, want) in [
        (
            Operator::Plus,
            Elementary::Int,
            Elementary::Dint,
            Some(Elementary::Dint),
        ),
        (
            Operator::Over,
            Elementary::Dint,
            Elementary::Lreal,
            Some(Elementary::Lreal),
        ),
        (
            Operator::Below,
            Elementary::Time,
            Elementary::Time,
            Some(Elementary::Bool),
        ),
        (
            Operator::Times,
            Elementary::Time,
            Elementary::Int,
            Some(Elementary::Time),
        ),
        (Operator::Times, Elementary::Int, Elementary::Time, None),
        (Operator::Over, Elementary::Time, Elementary::Time, None),
        (Operator::Mod, Elementary::Lreal, Elementary::Int, None),
        (Operator::Below, Elementary::Bool, Elementary::Bool, None),
        (Operator::Plus, Elementary::Time, Elementary::Dint, None),
    ] {
        let result = join_of(operator, left, right).map(|join| join.result);
        assert_eq!(rt; result, want, "{operator:?} of {left:?} and {right:?}");
    }
}

#[test]
fn functions_are_for_their_types(rt: HostRuntime) {
    use Elementary::{Bool, Dint, Int, Lreal, Time};
    assert_eq!(rt;
        called("ABS", &[Dint], &[-2_147_483_648]),
        Some(2_147_483_647)
    );
    assert_eq!(rt; called("abs", &[Time], &[-1]), None);
    assert_eq!(rt; called("Max", &[Int, Dint, Int], &[3, 9, -4]), Some(9));
    assert_eq!(rt; called("MIN", &[Bool, Bool], &[0, 1]), None);
    assert_eq!(rt; called("MIN", &[Int], &[0]), None);
    assert_eq!(rt; called("LIMIT", &[Int, Int, Int], &[5, 7, 3]), Some(3));
    assert_eq!(rt; called("SEL", &[Bool, Time, Time], &[1, 5, 6]), Some(6));
    assert_eq!(rt; called("INT_TO_DINT", &[Int], &[65_534]), Some(-2));
    assert_eq!(rt; called("INT_TO_DINT", &[Dint], &[1]), None);
    assert_eq!(rt; called("DINT_TO_INT", &[Int], &[65_534]), Some(-2));
    assert_eq!(rt;
        called("REAL_TO_INT", &[Lreal], &[-2_500_000_000]),
        Some(-3)
    );
    assert_eq!(rt;
        called("LREAL_TO_INT", &[Lreal], &[40_000_000_000_000]),
        Some(32_767)
    );
    assert_eq!(rt; called("TIME_TO_DINT", &[Time], &[-1_999]), Some(-1));
    assert_eq!(rt; called("DINT_TO_TIME", &[Dint], &[999]), Some(999_000));
}
