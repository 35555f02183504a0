// Motion function blocks.

ghost use Rattle.std.specs.Prelude.{◌≡◌};
ghost use Rattle.iec_tree.specs.Motion as spec;

/// The motion function blocks that a text may declare (PLCopen Motion Control Part 1 and Part 4).
#[derive(Clone, Copy, Debug, PartialEq, Eq)]
pub enum Motion {
    Power,
    Reset,
    Home,
    Stop,
    Halt,
    MoveAbsolute,
    MoveRelative,
    MoveAdditive,
    MoveVelocity,
    GearIn,
    GearInPos,
    GearOut,
    CamIn,
    CamOut,
    SetOverride,
    GroupEnable,
    GroupDisable,
    GroupReset,
    GroupStop,
    GroupHalt,
    MoveLinearAbsolute,
    MoveCircularAbsolute,
    GroupSetOverride,
    ReadActualPosition,
    ReadActualVelocity,
    ReadStatus,
    ReadAxisError,
}

/// The motion function blocks.
pub const MOTION: [Motion; 27] = [
    Motion::Power,
    Motion::Reset,
    Motion::Home,
    Motion::Stop,
    Motion::Halt,
    Motion::MoveAbsolute,
    Motion::MoveRelative,
    Motion::MoveAdditive,
    Motion::MoveVelocity,
    Motion::GearIn,
    Motion::GearInPos,
    Motion::GearOut,
    Motion::CamIn,
    Motion::CamOut,
    Motion::SetOverride,
    Motion::GroupEnable,
    Motion::GroupDisable,
    Motion::GroupReset,
    Motion::GroupStop,
    Motion::GroupHalt,
    Motion::MoveLinearAbsolute,
    Motion::MoveCircularAbsolute,
    Motion::GroupSetOverride,
    Motion::ReadActualPosition,
    Motion::ReadActualVelocity,
    Motion::ReadStatus,
    Motion::ReadAxisError,
];

// How a block is written after `MC_`.
#[tactic(auto, unfolding(crate::specs::Motion::motion_text))]
fn motion_text(motion: Motion) -> &'static str
    ensures { result.now ≡ spec.motion_text motion }
{
    match motion {
        Motion::Power => "Power",
        Motion::Reset => "Reset",
        Motion::Home => "Home",
        Motion::Stop => "Stop",
        Motion::Halt => "Halt",
        Motion::MoveAbsolute => "MoveAbsolute",
        Motion::MoveRelative => "MoveRelative",
        Motion::MoveAdditive => "MoveAdditive",
        Motion::MoveVelocity => "MoveVelocity",
        Motion::GearIn => "GearIn",
        Motion::GearInPos => "GearInPos",
        Motion::GearOut => "GearOut",
        Motion::CamIn => "CamIn",
        Motion::CamOut => "CamOut",
        Motion::SetOverride => "SetOverride",
        Motion::GroupEnable => "GroupEnable",
        Motion::GroupDisable => "GroupDisable",
        Motion::GroupReset => "GroupReset",
        Motion::GroupStop => "GroupStop",
        Motion::GroupHalt => "GroupHalt",
        Motion::MoveLinearAbsolute => "MoveLinearAbsolute",
        Motion::MoveCircularAbsolute => "MoveCircularAbsolute",
        Motion::GroupSetOverride => "GroupSetOverride",
        Motion::ReadActualPosition => "ReadActualPosition",
        Motion::ReadActualVelocity => "ReadActualVelocity",
        Motion::ReadStatus => "ReadStatus",
        Motion::ReadAxisError => "ReadAxisError",
    }
}

// Whether a name begins with `MC_`, in any case of letters.
fn has_prefix(name: &[u8]) -> bool
    ensures { result ≡ spec.has_prefix name.now }
{
    3 <= name.len() && name[..3].eq_ignore_ascii_case(b"MC_")
}

// A name without `MC_` in front.
#[tactic(auto, unfolding(crate::specs::Motion::without_prefix))]
fn without_prefix(name: &[u8]) -> &[u8]
    ensures { result.now ≡ spec.without_prefix name.now }
{
    if has_prefix(name) { &name[3..] } else { name }
}

/// The motion function block of this name, with `MC_` in front or without it, in any case of
/// letters.
#[tactic(auto, unfolding(crate::specs::Motion::motion_named))]
pub fn motion_named(name: &[u8]) -> Option<Motion>
    ensures { result ≡ spec.motion_named name.now }
{
    let name = without_prefix(name);
    MOTION
        .iter()
        .find(|m| motion_text(**m).as_bytes().eq_ignore_ascii_case(name))
        .copied()
}
