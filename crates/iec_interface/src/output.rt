// Outputs of motion blocks.

ghost use Rattle.std.specs.Prelude.{◌≡◌};
ghost use Rattle.iec_interface.specs.Outputs as spec;

use iec_tree::{Elementary, Motion};

/// The outputs of motion blocks.
#[derive(Clone, Copy, Debug, PartialEq, Eq)]
pub enum Output {
    Done,
    InVelocity,
    InGear,
    InSync,
    Status,
    Enabled,
    Valid,
    Busy,
    Active,
    CommandAborted,
    Error,
    ErrorId,
    Position,
    Velocity,
    ErrorStop,
    Disabled,
    Stopping,
    Homing,
    Standstill,
    DiscreteMotion,
    ContinuousMotion,
    SynchronizedMotion,
    AxisErrorId,
}

const POWER: [Output; 4] = [Output::Status, Output::Busy, Output::Error, Output::ErrorId];

const ONCE: [Output; 5] = [
    Output::Done,
    Output::Busy,
    Output::CommandAborted,
    Output::Error,
    Output::ErrorId,
];

const MOTION: [Output; 6] = [
    Output::Done,
    Output::Busy,
    Output::Active,
    Output::CommandAborted,
    Output::Error,
    Output::ErrorId,
];

const IN_VELOCITY: [Output; 6] = [
    Output::InVelocity,
    Output::Busy,
    Output::Active,
    Output::CommandAborted,
    Output::Error,
    Output::ErrorId,
];

const IN_GEAR: [Output; 6] = [
    Output::InGear,
    Output::Busy,
    Output::Active,
    Output::CommandAborted,
    Output::Error,
    Output::ErrorId,
];

const IN_SYNC: [Output; 6] = [
    Output::InSync,
    Output::Busy,
    Output::Active,
    Output::CommandAborted,
    Output::Error,
    Output::ErrorId,
];

const OVERRIDE: [Output; 4] = [
    Output::Enabled,
    Output::Busy,
    Output::Error,
    Output::ErrorId,
];

const READ_POSITION: [Output; 5] = [
    Output::Valid,
    Output::Busy,
    Output::Error,
    Output::ErrorId,
    Output::Position,
];

const READ_VELOCITY: [Output; 5] = [
    Output::Valid,
    Output::Busy,
    Output::Error,
    Output::ErrorId,
    Output::Velocity,
];

const READ_STATUS: [Output; 12] = [
    Output::Valid,
    Output::Busy,
    Output::Error,
    Output::ErrorId,
    Output::ErrorStop,
    Output::Disabled,
    Output::Stopping,
    Output::Homing,
    Output::Standstill,
    Output::DiscreteMotion,
    Output::ContinuousMotion,
    Output::SynchronizedMotion,
];

const READ_ERROR: [Output; 5] = [
    Output::Valid,
    Output::Busy,
    Output::Error,
    Output::ErrorId,
    Output::AxisErrorId,
];

/// The outputs of a block, in the order of PLCopen's declarations.
#[tactic(auto, unfolding(crate::specs::Outputs::outputs_of))]
pub fn outputs_of(block: Motion) -> &'static [Output]
    ensures { result.now ≡ spec.outputs_of block }
{
    match block {
        Motion::Power => &POWER,
        Motion::Reset
        | Motion::GroupEnable
        | Motion::GroupDisable
        | Motion::GroupReset
        | Motion::GearOut
        | Motion::CamOut => &ONCE,
        Motion::Home
        | Motion::Stop
        | Motion::Halt
        | Motion::GroupStop
        | Motion::GroupHalt
        | Motion::MoveAbsolute
        | Motion::MoveRelative
        | Motion::MoveAdditive
        | Motion::MoveLinearAbsolute
        | Motion::MoveCircularAbsolute => &MOTION,
        Motion::MoveVelocity => &IN_VELOCITY,
        Motion::GearIn => &IN_GEAR,
        Motion::GearInPos | Motion::CamIn => &IN_SYNC,
        Motion::SetOverride | Motion::GroupSetOverride => &OVERRIDE,
        Motion::ReadActualPosition => &READ_POSITION,
        Motion::ReadActualVelocity => &READ_VELOCITY,
        Motion::ReadStatus => &READ_STATUS,
        Motion::ReadAxisError => &READ_ERROR,
    }
}

// How an output is written.
#[tactic(auto, unfolding(crate::specs::Outputs::output_text))]
fn output_text(output: Output) -> &'static str
    ensures { result.now ≡ spec.output_text output }
{
    match output {
        Output::Done => "Done",
        Output::InVelocity => "InVelocity",
        Output::InGear => "InGear",
        Output::InSync => "InSync",
        Output::Status => "Status",
        Output::Enabled => "Enabled",
        Output::Valid => "Valid",
        Output::Busy => "Busy",
        Output::Active => "Active",
        Output::CommandAborted => "CommandAborted",
        Output::Error => "Error",
        Output::ErrorId => "ErrorID",
        Output::Position => "Position",
        Output::Velocity => "Velocity",
        Output::ErrorStop => "ErrorStop",
        Output::Disabled => "Disabled",
        Output::Stopping => "Stopping",
        Output::Homing => "Homing",
        Output::Standstill => "Standstill",
        Output::DiscreteMotion => "DiscreteMotion",
        Output::ContinuousMotion => "ContinuousMotion",
        Output::SynchronizedMotion => "SynchronizedMotion",
        Output::AxisErrorId => "AxisErrorID",
    }
}

/// The output of a block that has this name, in any case of letters; none where the block has no
/// such output.
#[tactic(auto, unfolding(crate::specs::Outputs::output_of))]
pub fn output_of(block: Motion, name: &[u8]) -> Option<Output>
    ensures { result ≡ spec.output_of block name.now }
{
    outputs_of(block)
        .iter()
        .find(|output| output_text(**output).as_bytes().eq_ignore_ascii_case(name))
        .copied()
}

/// The type of an output.
#[tactic(auto, unfolding(crate::specs::Outputs::type_of))]
pub fn type_of(output: Output) -> Elementary
    ensures { result ≡ spec.type_of output }
{
    match output {
        Output::ErrorId | Output::AxisErrorId => Elementary::Dint,
        Output::Position | Output::Velocity => Elementary::Lreal,
        _ => Elementary::Bool,
    }
}
