// MC_MoveLinearAbsolute, and MC_MoveCircularAbsolute, which is refused (PLCopen Motion Control
// Part 4).

ghost use Rattle.std.specs.Prelude.{◌≡◌};
ghost use Rattle.group_core.specs.blocks.Line as spec;

use crate::group::Motion;
use crate::reason::Reason::{self, *};
use command_pool::{Finish, Wanted};
use plc_types::BlockKind;

/// The reasons against which a line is tested, in their order.
pub const LINE_TESTS: &[Reason] = &[
    BadVelocity,
    BadAcceleration,
    BadDeceleration,
    JerkRefused,
    TargetOutside,
    QueueFull,
    GroupStateRefuses,
    BlendRefused,
];

/// The reasons against which a circle is tested, in their order; the last always holds.
pub const CIRCLE_TESTS: &[Reason] = &[
    BadVelocity,
    BadAcceleration,
    BadDeceleration,
    JerkRefused,
    TargetOutside,
    QueueFull,
    GroupStateRefuses,
    BlendRefused,
    CircularRefused,
];

/// How a line ends by a step along its path, if it does.
pub fn line_ending(motion: &Motion, step: i64) -> Option<Finish>
    ensures { result ≡ spec.line_ending motion.now step }
{
    if motion.place == motion.limits.hi && step == 0 {
        Some(Finish::Done)
    } else {
        None
    }
}

/// What brakes a path before an aborting line begins.
pub fn braking_for(active: &Option<Wanted>) -> Option<Wanted>
    ensures { result ≡ spec.braking_for active.now }
{
    active.map(|wanted| Wanted {
        kind: BlockKind::GroupHalt,
        owner: None,
        ..wanted
    })
}
