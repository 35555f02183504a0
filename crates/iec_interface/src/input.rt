// Inputs of motion blocks.

ghost use Rattle.std.specs.Prelude.{◌≡◌};
ghost use Rattle.iec_interface.specs.Inputs as spec;

use iec_tree::{Elementary, Motion};

/// The inputs of motion blocks, besides their object.
#[derive(Clone, Copy, Debug, PartialEq, Eq)]
pub enum Input {
    Enable,
    Execute,
    Position,
    Distance,
    Velocity,
    Acceleration,
    Deceleration,
    Jerk,
    Direction,
    BufferMode,
    Master,
    RatioNumerator,
    RatioDenominator,
    MasterSyncPosition,
    SlaveSyncPosition,
    CamTableId,
    MasterOffset,
    SlaveOffset,
    VelFactor,
    Position1,
    Position2,
    Position3,
    Position4,
    Position5,
    Position6,
}

/// What an input takes.
#[derive(Clone, Copy, Debug, PartialEq, Eq)]
pub enum Taken {
    /// A value of this type.
    Value(Elementary),
    /// An array of `LREAL` with a value for each axis of the group at least.
    Positions,
    /// The name of an axis.
    Axis,
    /// A word for the direction.
    Direction,
    /// A word for the buffer mode.
    BufferMode,
}

const ENABLE: [Input; 1] = [Input::Enable];

const EXECUTE: [Input; 1] = [Input::Execute];

const HOME: [Input; 2] = [Input::Execute, Input::Position];

const HALT: [Input; 3] = [Input::Execute, Input::Deceleration, Input::Jerk];

const MOVE_ABSOLUTE: [Input; 8] = [
    Input::Execute,
    Input::Position,
    Input::Velocity,
    Input::Acceleration,
    Input::Deceleration,
    Input::Jerk,
    Input::Direction,
    Input::BufferMode,
];

const MOVE_RELATIVE: [Input; 7] = [
    Input::Execute,
    Input::Distance,
    Input::Velocity,
    Input::Acceleration,
    Input::Deceleration,
    Input::Jerk,
    Input::BufferMode,
];

const MOVE_VELOCITY: [Input; 7] = [
    Input::Execute,
    Input::Velocity,
    Input::Acceleration,
    Input::Deceleration,
    Input::Jerk,
    Input::Direction,
    Input::BufferMode,
];

const GEAR_IN: [Input; 8] = [
    Input::Execute,
    Input::Master,
    Input::RatioNumerator,
    Input::RatioDenominator,
    Input::Acceleration,
    Input::Deceleration,
    Input::Jerk,
    Input::BufferMode,
];

const GEAR_IN_POS: [Input; 11] = [
    Input::Execute,
    Input::Master,
    Input::RatioNumerator,
    Input::RatioDenominator,
    Input::MasterSyncPosition,
    Input::SlaveSyncPosition,
    Input::Velocity,
    Input::Acceleration,
    Input::Deceleration,
    Input::Jerk,
    Input::BufferMode,
];

const CAM_IN: [Input; 10] = [
    Input::Execute,
    Input::Master,
    Input::CamTableId,
    Input::MasterOffset,
    Input::SlaveOffset,
    Input::Velocity,
    Input::Acceleration,
    Input::Deceleration,
    Input::Jerk,
    Input::BufferMode,
];

const MOVE_LINEAR: [Input; 13] = [
    Input::Execute,
    Input::Position,
    Input::Position1,
    Input::Position2,
    Input::Position3,
    Input::Position4,
    Input::Position5,
    Input::Position6,
    Input::Velocity,
    Input::Acceleration,
    Input::Deceleration,
    Input::Jerk,
    Input::BufferMode,
];

const SET_OVERRIDE: [Input; 2] = [Input::Enable, Input::VelFactor];

/// The inputs of a block besides its object, in the order of PLCopen's declarations.
#[tactic(auto, unfolding(crate::specs::Inputs::inputs_of))]
pub fn inputs_of(block: Motion) -> &'static [Input]
    ensures { result.now ≡ spec.inputs_of block }
{
    match block {
        Motion::Power
        | Motion::ReadActualPosition
        | Motion::ReadActualVelocity
        | Motion::ReadStatus
        | Motion::ReadAxisError => &ENABLE,
        Motion::Reset
        | Motion::GearOut
        | Motion::CamOut
        | Motion::GroupEnable
        | Motion::GroupDisable
        | Motion::GroupReset => &EXECUTE,
        Motion::Home => &HOME,
        Motion::Stop | Motion::Halt | Motion::GroupStop | Motion::GroupHalt => &HALT,
        Motion::MoveAbsolute => &MOVE_ABSOLUTE,
        Motion::MoveRelative | Motion::MoveAdditive => &MOVE_RELATIVE,
        Motion::MoveVelocity => &MOVE_VELOCITY,
        Motion::GearIn => &GEAR_IN,
        Motion::GearInPos => &GEAR_IN_POS,
        Motion::CamIn => &CAM_IN,
        Motion::MoveLinearAbsolute | Motion::MoveCircularAbsolute => &MOVE_LINEAR,
        Motion::SetOverride | Motion::GroupSetOverride => &SET_OVERRIDE,
    }
}

// How an input is written.
#[tactic(auto, unfolding(crate::specs::Inputs::input_text))]
fn input_text(input: Input) -> &'static str
    ensures { result.now ≡ spec.input_text input }
{
    match input {
        Input::Enable => "Enable",
        Input::Execute => "Execute",
        Input::Position => "Position",
        Input::Distance => "Distance",
        Input::Velocity => "Velocity",
        Input::Acceleration => "Acceleration",
        Input::Deceleration => "Deceleration",
        Input::Jerk => "Jerk",
        Input::Direction => "Direction",
        Input::BufferMode => "BufferMode",
        Input::Master => "Master",
        Input::RatioNumerator => "RatioNumerator",
        Input::RatioDenominator => "RatioDenominator",
        Input::MasterSyncPosition => "MasterSyncPosition",
        Input::SlaveSyncPosition => "SlaveSyncPosition",
        Input::CamTableId => "CamTableID",
        Input::MasterOffset => "MasterOffset",
        Input::SlaveOffset => "SlaveOffset",
        Input::VelFactor => "VelFactor",
        Input::Position1 => "Position1",
        Input::Position2 => "Position2",
        Input::Position3 => "Position3",
        Input::Position4 => "Position4",
        Input::Position5 => "Position5",
        Input::Position6 => "Position6",
    }
}

/// The input of a block that has this name, in any case of letters; none where the block has no
/// such input.
#[tactic(auto, unfolding(crate::specs::Inputs::input_of))]
pub fn input_of(block: Motion, name: &[u8]) -> Option<Input>
    ensures { result ≡ spec.input_of block name.now }
{
    inputs_of(block)
        .iter()
        .find(|input| input_text(**input).as_bytes().eq_ignore_ascii_case(name))
        .copied()
}

/// What an input of a block takes.
#[tactic(auto, unfolding(crate::specs::Inputs::taken_by))]
pub fn taken_by(block: Motion, input: Input) -> Taken
    ensures { result ≡ spec.taken_by block input }
{
    match input {
        Input::Enable | Input::Execute => Taken::Value(Elementary::Bool),
        Input::RatioNumerator | Input::RatioDenominator | Input::CamTableId => {
            Taken::Value(Elementary::Dint)
        }
        Input::Master => Taken::Axis,
        Input::Direction => Taken::Direction,
        Input::BufferMode => Taken::BufferMode,
        Input::Position if is_on_path(block) => Taken::Positions,
        _ => Taken::Value(Elementary::Lreal),
    }
}

// Whether a block moves a group along a path.
fn is_on_path(block: Motion) -> bool
    ensures { result ≡ spec.is_on_path block }
{
    matches!(
        block,
        Motion::MoveLinearAbsolute | Motion::MoveCircularAbsolute
    )
}
