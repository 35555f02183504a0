// What the standard function blocks reply, call by call.

use iec_blocks::{Block, Call, Input, Reply, Standard, input_named};
use std::process::Abort;

// A call, and the reply that is wanted.
#[derive(Clone, Copy)]
struct Row {
    call: Call,
    wanted: Reply,
}

// A call of a timer at a time, with IN and PT, and the Q and ET that are wanted; times in
// milliseconds.
fn timed(time: u16, signal: bool, preset: i16, flag: bool, value: i16) -> Row {
    Row {
        call: Call {
            signal,
            reset: false,
            preset: i64::from(preset) * 1000,
            time: u64::from(time) * 1000,
        },
        wanted: Reply {
            flag,
            value: i64::from(value) * 1000,
        },
    }
}

// A call of another block with its signal and its reset, and the Q and CV that are wanted; the
// greatest count is 2.
fn untimed(signal: bool, reset: bool, flag: bool, value: i64) -> Row {
    Row {
        call: Call {
            signal,
            reset,
            preset: 2,
            time: 0,
        },
        wanted: Reply { flag, value },
    }
}

// Calls a block, and stops the test where a reply isn't the wanted one.
fn expect_replies(rt: &impl Abort, standard: Standard, rows: &[Row]) {
    let mut block = Block::new(standard);
    for (i, row) in rows.iter().enumerate() {
        assert_eq!(rt;
            block.call(&row.call),
            row.wanted,
            "call {i} of {standard:?}"
        );
    }
}

#[test]
fn an_on_delay_begins_where_its_input_rises(rt: HostRuntime) {
    let rows = [
        timed(0, false, 3, false, 0),
        timed(1, true, 3, false, 0),
        timed(2, true, 3, false, 1),
        timed(4, true, 3, true, 3),
        timed(9, true, 3, true, 3),
        timed(10, false, 3, false, 0),
        timed(11, true, 3, false, 0),
        timed(13, true, 2, true, 2),
        timed(13, true, -1, true, 0),
    ];
    expect_replies(&rt, Standard::Ton, &rows);
}

#[test]
fn an_off_delay_begins_where_its_input_falls(rt: HostRuntime) {
    let rows = [
        timed(0, false, 3, false, 0),
        timed(1, true, 3, true, 0),
        timed(2, false, 3, true, 0),
        timed(4, false, 3, true, 2),
        timed(5, false, 3, false, 3),
        timed(9, false, 3, false, 3),
        timed(10, true, 3, true, 0),
    ];
    expect_replies(&rt, Standard::Tof, &rows);
}

#[test]
fn a_pulse_that_is_over_runs_again_by_a_rising_input_alone(rt: HostRuntime) {
    let rows = [
        timed(0, true, 2, true, 0),
        timed(1, true, 2, true, 1),
        timed(2, true, 2, false, 2),
        timed(3, true, 9, false, 3),
        timed(4, true, 9, false, 4),
        timed(5, false, 2, false, 0),
        timed(6, true, 2, true, 0),
        timed(7, true, 2, true, 1),
    ];
    expect_replies(&rt, Standard::Tp, &rows);
}

#[test]
fn a_pulse_goes_on_without_its_input(rt: HostRuntime) {
    let rows = [
        timed(0, true, 3, true, 0),
        timed(1, false, 3, true, 1),
        timed(2, true, 3, true, 2),
        timed(2, false, 3, true, 2),
        timed(3, true, 3, true, 0),
        timed(4, false, 1, false, 0),
        timed(5, true, 0, false, 0),
    ];
    expect_replies(&rt, Standard::Tp, &rows);
}

#[test]
fn triggers_tell_edges(rt: HostRuntime) {
    let rising = [
        untimed(true, false, true, 0),
        untimed(true, false, false, 0),
        untimed(false, false, false, 0),
        untimed(true, false, true, 0),
    ];
    expect_replies(&rt, Standard::RTrig, &rising);
    let falling = [
        untimed(false, false, false, 0),
        untimed(true, false, false, 0),
        untimed(false, false, true, 0),
        untimed(false, false, false, 0),
    ];
    expect_replies(&rt, Standard::FTrig, &falling);
}

#[test]
fn a_counter_counts_rises_and_a_reset_comes_first(rt: HostRuntime) {
    let rows = [
        untimed(true, false, false, 1),
        untimed(true, false, false, 1),
        untimed(false, false, false, 1),
        untimed(true, false, true, 2),
        untimed(false, false, true, 2),
        untimed(true, true, false, 0),
        untimed(true, false, false, 0),
    ];
    expect_replies(&rt, Standard::Ctu, &rows);
}

#[test]
fn bistables_set_or_reset_first(rt: HostRuntime) {
    let set_first = [
        untimed(false, false, false, 0),
        untimed(true, true, true, 0),
        untimed(false, false, true, 0),
        untimed(false, true, false, 0),
    ];
    expect_replies(&rt, Standard::Sr, &set_first);
    let reset_first = [
        untimed(true, true, false, 0),
        untimed(true, false, true, 0),
        untimed(false, false, true, 0),
        untimed(false, true, false, 0),
    ];
    expect_replies(&rt, Standard::Rs, &reset_first);
}

#[test]
fn inputs_are_named_in_any_case(rt: HostRuntime) {
    for (standard, name, input) in [
        (Standard::Ton, "in", Some(Input::Signal)),
        (Standard::Tp, "Pt", Some(Input::Preset)),
        (Standard::Ctu, "r", Some(Input::Reset)),
        (Standard::Ctu, "RESET", Some(Input::Reset)),
        (Standard::Sr, "set1", Some(Input::Signal)),
        (Standard::Rs, "set1", None),
    ] {
        assert_eq!(rt; input_named(standard, name.as_bytes()), input, "{name}");
    }
}
