// The controlwords that the kernel gives a drive.

ghost use Rattle.std.specs.Prelude.{◌≡◌, ◌&&◌, not, if◌then◌else◌};
ghost use Rattle.cia402_machine.specs.Controlword as spec;

use crate::command::has_reset_bit;
use plc_types::DriveState;

/// The controlword that takes the voltage from a drive (object 6040h).
pub const DISABLE_VOLTAGE: u16 = 0x0000;

/// The controlword for Ready to switch on (object 6040h).
pub const SHUTDOWN: u16 = 0x0006;

/// The controlword for Switched on (object 6040h).
pub const SWITCH_ON: u16 = 0x0007;

/// The controlword for Operation enabled (object 6040h).
pub const ENABLE_OPERATION: u16 = 0x000f;

/// The controlword that resets a fault, where the last one had bit 7 zero (object 6040h).
pub const FAULT_RESET: u16 = 0x0080;

/// The controlword for a drive whose statusword gives a state, or none: with power on the one that
/// leads to Operation enabled, in Fault with a Reset pending the fault reset, else no voltage.
/// `last` is the controlword that the drive was given before.
pub fn next_controlword(state: Option<DriveState>, power: bool, reset: bool, last: u16) -> u16
    ensures { result ≡ spec.next_controlword_of state power reset last }
{
    match state {
        Some(DriveState::SwitchOnDisabled) => powered(power, SHUTDOWN),
        Some(DriveState::ReadyToSwitchOn) => powered(power, SWITCH_ON),
        Some(DriveState::SwitchedOn) => powered(power, ENABLE_OPERATION),
        Some(DriveState::OperationEnabled) => powered(power, ENABLE_OPERATION),
        Some(DriveState::Fault) => reset_word(reset, last),
        _ => DISABLE_VOLTAGE,
    }
}

/// A controlword where power is on, else no voltage.
fn powered(power: bool, controlword: u16) -> u16
    ensures { result ≡ (if power then controlword else 0) }
{
    if power { controlword } else { DISABLE_VOLTAGE }
}

/// The fault reset where it is wanted and the last controlword had bit 7 zero, else no voltage.
fn reset_word(reset: bool, last: u16) -> u16
    ensures { result ≡ (if reset && not (spec.has_reset_bit last) then 128 else 0) }
{
    if reset && !has_reset_bit(last) {
        FAULT_RESET
    } else {
        DISABLE_VOLTAGE
    }
}
