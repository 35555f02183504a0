// The steps of a drive.

ghost use Rattle.std.specs.Prelude.{◌≡◌, [], ◌∷◌, false};
ghost use Rattle.cia402_machine.specs.Transitions.{Asked};
ghost use Rattle.cia402_machine.specs.Transitions as faults;
ghost use Rattle.cia402_machine.specs.Steps as spec;

use crate::command::{Command, command_of};
use plc_types::DriveState;

/// The state after a step in which a drive is given a controlword (IEC 61800-7-201): at most one
/// transition. A fault comes first, but has no effect on a drive that has one already; then what
/// the drive does by itself; then what the controlword asks for. `last` is the controlword of the
/// step before.
#[tactic(auto, unfolding(crate::specs::Steps::drive_step_of))]
pub fn drive_step(state: DriveState, last: u16, controlword: u16, fault: bool) -> DriveState
    ensures { result ≡ spec.drive_step_of state last controlword fault }
{
    if fault && !is_faulty(state) {
        DriveState::FaultReactionActive
    } else {
        unfaulted_step(state, command_of(last, controlword))
    }
}

/// Whether a drive reacts to a fault or has one.
fn is_faulty(state: DriveState) -> bool
    ensures { result ≡ faults.is_faulty state }
{
    matches!(state, DriveState::FaultReactionActive | DriveState::Fault)
}

/// The state after a step without a new fault, by the command that the controlword gives.
fn unfaulted_step(state: DriveState, command: Option<Command>) -> DriveState
    ensures { result ≡ spec.stepped_by state (spec.causes_of false command) }
{
    match state {
        DriveState::NotReady => DriveState::SwitchOnDisabled,
        DriveState::FaultReactionActive => DriveState::Fault,
        _ => match command {
            None => state,
            Some(command) => commanded(state, command),
        },
    }
}

/// The state to which a command leads, the same where it leads nowhere.
fn commanded(state: DriveState, command: Command) -> DriveState
    ensures { result ≡ spec.stepped_by state (Asked command ∷ []) }
{
    match (state, command) {
        (DriveState::SwitchOnDisabled, Command::Shutdown) => DriveState::ReadyToSwitchOn,
        (DriveState::ReadyToSwitchOn, Command::SwitchOn) => DriveState::SwitchedOn,
        (DriveState::ReadyToSwitchOn, Command::EnableOperation) => DriveState::SwitchedOn,
        (DriveState::ReadyToSwitchOn, Command::QuickStop) => DriveState::SwitchOnDisabled,
        (DriveState::ReadyToSwitchOn, Command::DisableVoltage) => DriveState::SwitchOnDisabled,
        (DriveState::SwitchedOn, Command::EnableOperation) => DriveState::OperationEnabled,
        (DriveState::SwitchedOn, Command::Shutdown) => DriveState::ReadyToSwitchOn,
        (DriveState::SwitchedOn, Command::QuickStop) => DriveState::SwitchOnDisabled,
        (DriveState::SwitchedOn, Command::DisableVoltage) => DriveState::SwitchOnDisabled,
        (DriveState::OperationEnabled, Command::SwitchOn) => DriveState::SwitchedOn,
        (DriveState::OperationEnabled, Command::Shutdown) => DriveState::ReadyToSwitchOn,
        (DriveState::OperationEnabled, Command::DisableVoltage) => DriveState::SwitchOnDisabled,
        (DriveState::OperationEnabled, Command::QuickStop) => DriveState::QuickStopActive,
        (DriveState::QuickStopActive, Command::DisableVoltage) => DriveState::SwitchOnDisabled,
        (DriveState::Fault, Command::FaultReset) => DriveState::SwitchOnDisabled,
        _ => state,
    }
}
