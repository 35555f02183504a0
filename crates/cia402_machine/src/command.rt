// The commands of the controlword.

ghost use Rattle.std.specs.Prelude.{◌≡◌, ◌↔◌, IsTrue, ℕ, false};
ghost use Rattle.cia402_machine.specs.Controlword as spec;
ghost use Rattle.cia402_machine.specs.declared.command.Command.{Command};

/// What a controlword asks of a drive (object 6040h).
#[derive(Clone, Copy, Debug, PartialEq, Eq)]
pub enum Command {
    Shutdown,
    SwitchOn,
    EnableOperation,
    DisableVoltage,
    QuickStop,
    FaultReset,
}

/// The command that a controlword gives after the last one (object 6040h): a fault reset is a rise
/// of bit 7, and a word with that bit gives no other command.
pub fn command_of(last: u16, controlword: u16) -> Option<Command>
    ensures value { result ≡ spec.command_of_words last controlword }
    ensures gives { (command : Command) →
        (result ≡ Some command) ↔ IsTrue (spec.gives last controlword command) }
{
    if !has_reset_bit(controlword) {
        Some(plain_command_of(controlword))
    } else if !has_reset_bit(last) {
        Some(Command::FaultReset)
    } else {
        None
    }
}

/// Whether the bit of a fault reset is set (object 6040h, bit 7).
pub fn has_reset_bit(controlword: u16) -> bool
    ensures { result ≡ spec.has_reset_bit controlword }
{
    controlword & 0x0080 != 0
}

/// The command of a controlword without the bit of a fault reset.
fn plain_command_of(controlword: u16) -> Command
    requires { spec.has_reset_bit controlword ≡ false }
    ensures { (last : ℕ) → spec.command_of_words last controlword ≡ Some result }
{
    if controlword & 0x0002 == 0 {
        Command::DisableVoltage
    } else if controlword & 0x0004 == 0 {
        Command::QuickStop
    } else if controlword & 0x0001 == 0 {
        Command::Shutdown
    } else if controlword & 0x0008 == 0 {
        Command::SwitchOn
    } else {
        Command::EnableOperation
    }
}
