// The flags of a block's outputs, as texts name them.

ghost use Rattle.std.specs.Prelude.{◌≡◌};
ghost use Rattle.plc_types.specs.Flags as spec;

use crate::outputs::Outputs;

/// The flags of a block's outputs: Busy, Active, Done, CommandAborted, Error, and what is reached
/// (InVelocity, InGear, InSync, Status).
#[derive(Clone, Copy, Debug, PartialEq, Eq)]
pub enum Flag {
    Busy,
    Active,
    Done,
    Aborted,
    Error,
    Reached,
}

/// The flags, in the order of a block's outputs.
const FLAGS: [Flag; 6] = [
    Flag::Busy,
    Flag::Active,
    Flag::Done,
    Flag::Aborted,
    Flag::Error,
    Flag::Reached,
];

// The name of a flag.
#[tactic(auto, unfolding(crate::specs::Flags::flag_name))]
fn flag_name(flag: Flag) -> &'static str
    ensures { result.now ≡ spec.flag_name flag }
{
    match flag {
        Flag::Busy => "busy",
        Flag::Active => "active",
        Flag::Done => "done",
        Flag::Aborted => "aborted",
        Flag::Error => "error",
        Flag::Reached => "reached",
    }
}

/// The flag of this name.
pub fn flag_named(name: &[u8]) -> Option<Flag>
    ensures { result ≡ spec.flag_named name.now }
{
    FLAGS
        .iter()
        .find(|flag| flag_name(**flag).as_bytes() == name)
        .copied()
}

/// What the outputs of a block say of a flag.
pub fn is_shown(flag: Flag, outputs: &Outputs) -> bool
    ensures { result ≡ spec.is_shown flag outputs.now }
{
    match flag {
        Flag::Busy => outputs.busy,
        Flag::Active => outputs.active,
        Flag::Done => outputs.done,
        Flag::Aborted => outputs.aborted,
        Flag::Error => outputs.error,
        Flag::Reached => outputs.reached,
    }
}
