// The worked rows of drives, and all statuswords.

use crate::{
    Command, ENABLE_OPERATION, command_of, drive_step, next_controlword, state_of, status_of,
};
use plc_types::DriveState;
use std::process::Abort;

// What comes to a drive in a cycle, and the words that are seen in it.
#[derive(Clone, Copy, Debug)]
struct Cycle {
    fault: bool,
    reset: bool,
    statusword: u16,
    controlword: u16,
}

fn seen(fault: bool, reset: bool, statusword: u16, controlword: u16) -> Cycle {
    Cycle {
        fault,
        reset,
        statusword,
        controlword,
    }
}

// Commands a drive with power on, and stops the test where a word differs.
fn expect_words(rt: &impl Abort, state: DriveState, last: u16, cycles: &[Cycle]) {
    let mut state = state;
    let mut last = last;
    for (i, cycle) in cycles.iter().enumerate() {
        let statusword = status_of(state);
        let controlword = next_controlword(state_of(statusword), true, cycle.reset, last);
        assert_eq!(rt; statusword, cycle.statusword, "statusword of row {i}");
        assert_eq!(rt; controlword, cycle.controlword, "controlword of row {i}");
        state = drive_step(state, last, controlword, cycle.fault);
        last = controlword;
    }
}

#[test]
fn power_brings_a_drive_to_operation_enabled(rt: HostRuntime) {
    let cycles = [
        seen(false, false, 0x0040, 0x0006),
        seen(false, false, 0x0031, 0x0007),
        seen(false, false, 0x0033, 0x000f),
        seen(false, false, 0x0037, 0x000f),
    ];
    expect_words(&rt, DriveState::SwitchOnDisabled, 0x0000, &cycles);
}

#[test]
fn a_fault_is_reset_and_the_drive_enabled_again(rt: HostRuntime) {
    let cycles = [
        seen(false, false, 0x0037, 0x000f),
        seen(false, false, 0x0037, 0x000f),
        seen(true, false, 0x0037, 0x000f),
        seen(false, false, 0x001f, 0x0000),
        seen(false, false, 0x0008, 0x0000),
        seen(false, true, 0x0008, 0x0080),
        seen(false, false, 0x0040, 0x0006),
        seen(false, false, 0x0031, 0x0007),
        seen(false, false, 0x0033, 0x000f),
        seen(false, false, 0x0037, 0x000f),
    ];
    expect_words(&rt, DriveState::OperationEnabled, ENABLE_OPERATION, &cycles);
}

#[test]
fn faults_at_rest_end_in_fault_until_a_reset(rt: HostRuntime) {
    let cycles = [
        seen(true, false, 0x0037, 0x000f),
        seen(true, false, 0x001f, 0x0000),
        seen(true, false, 0x0008, 0x0000),
        seen(false, false, 0x0008, 0x0000),
        seen(false, true, 0x0008, 0x0080),
        seen(false, false, 0x0040, 0x0006),
        seen(false, false, 0x0031, 0x0007),
        seen(false, false, 0x0033, 0x000f),
        seen(false, false, 0x0037, 0x000f),
    ];
    expect_words(&rt, DriveState::OperationEnabled, ENABLE_OPERATION, &cycles);
}

// Whether bits 6 to 0 of a word are as a pattern has them.
fn has_pattern(word: u16, pattern: &[u8; 7]) -> bool {
    for (i, letter) in pattern.iter().enumerate() {
        let bit = if (word >> (6 - i)) & 1 == 1 {
            b'1'
        } else {
            b'0'
        };
        if *letter != b'x' && *letter != bit {
            return false;
        }
    }
    true
}

#[test]
fn every_statusword_tells_the_state_of_its_pattern(rt: HostRuntime) {
    let patterns = [
        (DriveState::NotReady, b"0xx0000"),
        (DriveState::SwitchOnDisabled, b"1xx0000"),
        (DriveState::ReadyToSwitchOn, b"01x0001"),
        (DriveState::SwitchedOn, b"01x0011"),
        (DriveState::OperationEnabled, b"01x0111"),
        (DriveState::QuickStopActive, b"00x0111"),
        (DriveState::FaultReactionActive, b"0xx1111"),
        (DriveState::Fault, b"0xx1000"),
    ];
    for word in 0..=u16::MAX {
        let mut told = None;
        for (state, pattern) in patterns {
            if has_pattern(word, pattern) {
                told = Some(state);
            }
        }
        assert_eq!(rt; state_of(word), told, "at {word}");
    }
}

#[test]
fn controlwords_give_commands(rt: HostRuntime) {
    let words = [
        (0x0000, 0x0006, Some(Command::Shutdown)),
        (0x0000, 0x000e, Some(Command::Shutdown)),
        (0x0000, 0x0007, Some(Command::SwitchOn)),
        (0x0000, 0x000f, Some(Command::EnableOperation)),
        (0x0000, 0x0000, Some(Command::DisableVoltage)),
        (0x0000, 0x000d, Some(Command::DisableVoltage)),
        (0x0000, 0x0002, Some(Command::QuickStop)),
        (0x0000, 0x000b, Some(Command::QuickStop)),
        (0x0000, 0x0080, Some(Command::FaultReset)),
        (0x000f, 0x008f, Some(Command::FaultReset)),
        (0x0080, 0x0080, None),
        (0x0080, 0x0006, Some(Command::Shutdown)),
    ];
    for (last, word, command) in words {
        assert_eq!(rt; command_of(last, word), command, "{word} after {last}");
    }
}
