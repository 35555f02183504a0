// The statusword: how it is written and read.

ghost use Rattle.std.specs.Prelude.{◌≡◌, ◌↔◌, IsTrue, false};
ghost use Rattle.plc_types.specs.declared.drive.DriveState.{DriveState};
ghost use Rattle.cia402_machine.specs.Words.{fits};
ghost use Rattle.cia402_machine.specs.Statusword.{pattern_of, state_of_word, status_of_state};

use plc_types::DriveState;

/// The state that a statusword gives (object 6041h), None where it fits no state's pattern.
pub fn state_of(statusword: u16) -> Option<DriveState>
    ensures value { result ≡ state_of_word statusword }
    ensures reads { (state : DriveState) →
        (result ≡ Some state) ↔ IsTrue (fits statusword (pattern_of state)) }
    ensures none { (result ≡ None) ↔
        ((state : DriveState) → fits statusword (pattern_of state) ≡ false) }
{
    masked_state(statusword)
}

/// The state that the bits of a statusword give: those that distinguish states in which the quick
/// stop bit counts, then those for the other states.
fn masked_state(statusword: u16) -> Option<DriveState>
    ensures { result ≡ state_of_word statusword }
{
    match statusword & 0x006f {
        0x0027 => Some(DriveState::OperationEnabled),
        0x0021 => Some(DriveState::ReadyToSwitchOn),
        0x0023 => Some(DriveState::SwitchedOn),
        0x0007 => Some(DriveState::QuickStopActive),
        _ => match statusword & 0x004f {
            0x0000 => Some(DriveState::NotReady),
            0x0040 => Some(DriveState::SwitchOnDisabled),
            0x000f => Some(DriveState::FaultReactionActive),
            0x0008 => Some(DriveState::Fault),
            _ => None,
        },
    }
}

/// The statusword of a drive that is in a state (object 6041h).
pub fn status_of(state: DriveState) -> u16
    ensures { result ≡ status_of_state state }
{
    match state {
        DriveState::NotReady => 0x0000,
        DriveState::SwitchOnDisabled => 0x0040,
        DriveState::ReadyToSwitchOn => 0x0031,
        DriveState::SwitchedOn => 0x0033,
        DriveState::OperationEnabled => 0x0037,
        DriveState::QuickStopActive => 0x0017,
        DriveState::FaultReactionActive => 0x001f,
        DriveState::Fault => 0x0008,
    }
}
