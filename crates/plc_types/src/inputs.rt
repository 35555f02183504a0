// What a call gives a function block, and which inputs its kind takes.

ghost use Rattle.std.specs.Prelude.{◌≡◌, ◌&&◌, not};
ghost use Rattle.plc_types.specs.Inputs as spec;

use crate::kind::{BlockKind, BufferMode};

/// The inputs of a call. An input that the kind doesn't take is 0, `Aborting` for the mode and 1
/// for numerator and denominator; positions past the kind's count are 0; sizes are at most 10^18.
#[derive(Clone, Copy, Debug, PartialEq, Eq)]
pub struct Inputs {
    /// Execute, or Enable of a Power.
    pub execute: bool,
    /// The positions in internal units, one for an axis, one per axis in the group's order for a
    /// group.
    pub positions: [i64; 6],
    /// Internal units per cycle.
    pub velocity: i64,
    /// Internal units per cycle per cycle.
    pub acceleration: i64,
    /// Internal units per cycle per cycle.
    pub deceleration: i64,
    /// Must be 0 in this profile; another value is refused.
    pub jerk: i64,
    pub mode: BufferMode,
    /// The number of the master axis.
    pub master: u8,
    /// The gear's numerator.
    pub numerator: i64,
    /// The gear's denominator.
    pub denominator: i64,
    /// The number of the cam table, from 1.
    pub table: u16,
}

/// The inputs of a call with Execute false.
pub const INPUTS_OFF: Inputs = Inputs {
    execute: false,
    positions: [0; 6],
    velocity: 0,
    acceleration: 0,
    deceleration: 0,
    jerk: 0,
    mode: BufferMode::Aborting,
    master: 0,
    numerator: 1,
    denominator: 1,
    table: 0,
};

/// The inputs that a kind of block may take besides Execute, in the order of a call.
#[derive(Clone, Copy, Debug)]
pub enum Input {
    Position,
    Velocity,
    Acceleration,
    Deceleration,
    Jerk,
    Mode,
    Master,
    Numerator,
    Denominator,
    Table,
}

/// Whether a kind of block takes an input.
pub fn takes(kind: BlockKind, input: Input) -> bool
    ensures { result ≡ spec.takes kind input }
{
    match input {
        Input::Position => takes_position(kind),
        Input::Velocity => moves_by_velocity(kind),
        Input::Acceleration | Input::Mode => moves(kind),
        Input::Deceleration | Input::Jerk => moves(kind) || slows(kind),
        Input::Master => matches!(kind, BlockKind::GearIn | BlockKind::CamIn),
        Input::Numerator | Input::Denominator => matches!(kind, BlockKind::GearIn),
        Input::Table => matches!(kind, BlockKind::CamIn),
    }
}

// Whether the kind has a position to go to or to be at.
fn takes_position(kind: BlockKind) -> bool
    ensures { result ≡ spec.takes kind Input.Position }
{
    matches!(
        kind,
        BlockKind::Home
            | BlockKind::MoveAbsolute
            | BlockKind::MoveRelative
            | BlockKind::MoveAdditive
            | BlockKind::MoveLinearAbsolute
            | BlockKind::MoveCircularAbsolute
    )
}

// Whether the kind moves at a velocity that it is given.
fn moves_by_velocity(kind: BlockKind) -> bool
    ensures { result ≡ spec.takes kind Input.Velocity }
{
    matches!(
        kind,
        BlockKind::MoveAbsolute
            | BlockKind::MoveRelative
            | BlockKind::MoveAdditive
            | BlockKind::MoveVelocity
            | BlockKind::CamIn
            | BlockKind::MoveLinearAbsolute
            | BlockKind::MoveCircularAbsolute
    )
}

// Whether the kind is a motion that speeds up, and may wait after another.
fn moves(kind: BlockKind) -> bool
    ensures acceleration { result ≡ spec.takes kind Input.Acceleration }
    ensures mode { result ≡ spec.takes kind Input.Mode }
{
    moves_by_velocity(kind) || matches!(kind, BlockKind::GearIn)
}

// Whether the kind ends a motion.
fn slows(kind: BlockKind) -> bool
    ensures { result ≡
        (spec.takes kind Input.Deceleration && not (spec.takes kind Input.Acceleration)) }
{
    matches!(
        kind,
        BlockKind::Stop | BlockKind::Halt | BlockKind::GroupStop | BlockKind::GroupHalt
    )
}
