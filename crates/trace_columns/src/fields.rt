// How the fields of a trace are spelled.

ghost use Rattle.std.specs.Prelude.{◌≡◌, ◌++◌, ◌<◌, IfOk, OnOk};
ghost use Rattle.trace_columns.specs.Fields as spec;

use plc_types::{AxisState, DriveState, GroupState, Outputs};
use std::alloc::{AllocError, Global};

/// A truth value.
#[tactic(auto, unfolding(crate::specs::Fields::flag_text))]
pub fn flag_text(flag: bool) -> &'static str
    ensures { result.now ≡ spec.flag_text flag }
{
    if flag { "1" } else { "0" }
}

/// The hexadecimal digits, in small letters.
static HEX_LETTERS: [u8; 16] = *b"0123456789abcdef";

// A hexadecimal digit.
#[inline]
fn hex_digit(n: u8) -> u8
    requires { n < 16 }
    ensures { result ≡ spec.hex_digit n }
{
    HEX_LETTERS[n as usize]
}

/// The four hexadecimal digits of a word.
#[tactic(auto, unfolding(crate::specs::Fields::hex_text))]
pub fn hex_text(word: u16) -> [u8; 4]
    ensures { result ≡ spec.hex_text word }
{
    [
        hex_digit((word / 4096) as u8),
        hex_digit((word / 256 % 16) as u8),
        hex_digit((word / 16 % 16) as u8),
        hex_digit((word % 16) as u8),
    ]
}

// Puts a letter after the others where its output is true.
fn push_where(letters: &mut Vec<u8>, output: bool, letter: u8) -> Result<(), AllocError>
    ensures { OnOk result
        (letters.new.items ≡ letters.old.items ++ spec.letter_where output letter) }
{
    if output {
        letters.push(letter)?;
    }
    Ok(())
}

/// The letters of the outputs that are true.
#[tactic(auto, unfolding(crate::specs::Fields::outputs_text))]
pub fn outputs_text(alloc: Global, outputs: &Outputs) -> Result<Vec<u8>, AllocError>
    ensures { IfOk result (λ v. v.items ≡ spec.outputs_text outputs.now) }
{
    let mut letters = Vec::new(alloc);
    push_where(&mut letters, outputs.busy, b'B')?;
    push_where(&mut letters, outputs.active, b'A')?;
    push_where(&mut letters, outputs.done, b'D')?;
    push_where(&mut letters, outputs.aborted, b'C')?;
    push_where(&mut letters, outputs.error, b'E')?;
    push_where(&mut letters, outputs.reached, b'R')?;
    Ok(letters)
}

/// The name of an axis state.
#[tactic(auto, unfolding(crate::specs::Fields::axis_state_text))]
pub fn axis_state_text(state: AxisState) -> &'static str
    ensures { result.now ≡ spec.axis_state_text state }
{
    match state {
        AxisState::Disabled => "Disabled",
        AxisState::Standstill => "Standstill",
        AxisState::Homing => "Homing",
        AxisState::Stopping => "Stopping",
        AxisState::DiscreteMotion => "DiscreteMotion",
        AxisState::ContinuousMotion => "ContinuousMotion",
        AxisState::SynchronizedMotion => "SynchronizedMotion",
        AxisState::ErrorStop => "ErrorStop",
    }
}

/// The name of a group state.
#[tactic(auto, unfolding(crate::specs::Fields::group_state_text))]
pub fn group_state_text(state: GroupState) -> &'static str
    ensures { result.now ≡ spec.group_state_text state }
{
    match state {
        GroupState::GroupDisabled => "GroupDisabled",
        GroupState::GroupStandby => "GroupStandby",
        GroupState::GroupMoving => "GroupMoving",
        GroupState::GroupHoming => "GroupHoming",
        GroupState::GroupStopping => "GroupStopping",
        GroupState::GroupErrorStop => "GroupErrorStop",
    }
}

/// The name of a drive state.
#[tactic(auto, unfolding(crate::specs::Fields::drive_state_text))]
pub fn drive_state_text(state: DriveState) -> &'static str
    ensures { result.now ≡ spec.drive_state_text state }
{
    match state {
        DriveState::NotReady => "NotReady",
        DriveState::SwitchOnDisabled => "SwitchOnDisabled",
        DriveState::ReadyToSwitchOn => "ReadyToSwitchOn",
        DriveState::SwitchedOn => "SwitchedOn",
        DriveState::OperationEnabled => "OperationEnabled",
        DriveState::QuickStopActive => "QuickStopActive",
        DriveState::FaultReactionActive => "FaultReactionActive",
        DriveState::Fault => "Fault",
    }
}
