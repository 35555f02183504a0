// MC_GroupHalt and MC_GroupStop, and the hold of a GroupStop on GroupStopping (PLCopen Motion
// Control Part 4).

ghost use Rattle.std.specs.Prelude.{◌≡◌};
ghost use Rattle.buffer_modes.specs.Owners.{is_released};
ghost use Rattle.group_core.specs.blocks.Halts as spec;

use crate::reason::Reason::{self, *};
use command_pool::Finish;
use plc_types::BlockKind;

/// The reasons against which both are tested, in their order.
pub const HALT_TESTS: &[Reason] = &[BadDeceleration, JerkRefused, GroupStateRefuses];

/// How both end by a step along the path, if they do.
pub fn halt_ending(step: i64) -> Option<Finish>
    ensures { result ≡ spec.halt_ending step }
{
    if step == 0 { Some(Finish::Done) } else { None }
}

/// The instance that holds GroupStopping by a command.
pub fn hold_by(kind: BlockKind, owner: Option<u16>) -> Option<u16>
    ensures { result ≡ spec.hold_by kind owner }
{
    if matches!(kind, BlockKind::GroupStop) {
        owner
    } else {
        None
    }
}

/// Whether nobody holds GroupStopping.
pub fn is_released(hold: Option<u16>, held: bool) -> bool
    ensures { result ≡ is_released hold held }
{
    hold.is_none() || !held
}
