// The reasons against which each kind is tested, in their order.

ghost use Rattle.std.specs.Prelude.{◌≡◌};
ghost use Rattle.axis_core.specs.Kinds as spec;

use crate::reason::Reason::{self, *};
use plc_types::BlockKind;

const HOME: &[Reason] = &[
    NotPowered,
    InErrorStop,
    InStopping,
    InHoming,
    GroupHoldsAxis,
    TargetOutside,
    NotAtRest,
];

const STOP: &[Reason] = &[
    NotPowered,
    InErrorStop,
    InStopping,
    GroupHoldsAxis,
    BadDeceleration,
    JerkRefused,
];

const HALT: &[Reason] = &[
    NotPowered,
    InErrorStop,
    InStopping,
    InHoming,
    GroupHoldsAxis,
    BadDeceleration,
    JerkRefused,
];

const MOVE: &[Reason] = &[
    NotPowered,
    InErrorStop,
    InStopping,
    InHoming,
    GroupHoldsAxis,
    BadVelocity,
    BadAcceleration,
    BadDeceleration,
    JerkRefused,
    TargetOutside,
    QueueFull,
];

const VELOCITY: &[Reason] = &[
    NotPowered,
    InErrorStop,
    InStopping,
    InHoming,
    GroupHoldsAxis,
    BadVelocity,
    BadAcceleration,
    BadDeceleration,
    JerkRefused,
    QueueFull,
];

const GEAR: &[Reason] = &[
    NotPowered,
    InErrorStop,
    InStopping,
    InHoming,
    GroupHoldsAxis,
    BadAcceleration,
    BadDeceleration,
    JerkRefused,
    QueueFull,
    BadRatio,
    SelfMaster,
];

const CAM: &[Reason] = &[
    NotPowered,
    InErrorStop,
    InStopping,
    InHoming,
    GroupHoldsAxis,
    BadVelocity,
    BadAcceleration,
    BadDeceleration,
    JerkRefused,
    QueueFull,
    NoTable,
    SelfMaster,
];

const OUT: &[Reason] = &[
    NotPowered,
    InErrorStop,
    InStopping,
    InHoming,
    GroupHoldsAxis,
    NotFollowing,
];

/// The reasons against which a kind is tested.
pub fn tests_of(kind: BlockKind) -> &'static [Reason]
    ensures { result.now ≡ spec.tests_of kind }
{
    match kind {
        BlockKind::Home => HOME,
        BlockKind::Stop => STOP,
        BlockKind::Halt => HALT,
        BlockKind::MoveAbsolute | BlockKind::MoveRelative | BlockKind::MoveAdditive => MOVE,
        BlockKind::MoveVelocity => VELOCITY,
        BlockKind::GearIn => GEAR,
        BlockKind::CamIn => CAM,
        BlockKind::GearOut | BlockKind::CamOut => OUT,
        _ => &[],
    }
}
