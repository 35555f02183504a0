// The blocks of a group by their kinds.

ghost use Rattle.std.specs.Prelude.{◌≡◌};
ghost use Rattle.group_core.specs.Kinds as spec;

use crate::blocks::enable::{DISABLE_TESTS, ENABLE_TESTS};
use crate::blocks::halts::HALT_TESTS;
use crate::blocks::line::{CIRCLE_TESTS, LINE_TESTS};
use crate::reason::Reason;
use axis_state::GroupEvent;
use plc_types::{BlockKind, GroupState};

/// The reasons against which a kind is tested, in their order.
pub fn tests_of(kind: BlockKind) -> &'static [Reason]
    ensures { result.now ≡ spec.tests_of kind }
{
    match kind {
        BlockKind::GroupEnable => ENABLE_TESTS,
        BlockKind::GroupDisable => DISABLE_TESTS,
        BlockKind::GroupStop | BlockKind::GroupHalt => HALT_TESTS,
        BlockKind::MoveLinearAbsolute => LINE_TESTS,
        BlockKind::MoveCircularAbsolute => CIRCLE_TESTS,
        _ => &[],
    }
}

/// Whether a kind may come in a state, with a path that moves or not.
pub fn may_come(kind: BlockKind, state: GroupState, moves: bool) -> bool
    ensures { result ≡ spec.may_come kind state moves }
{
    match kind {
        BlockKind::GroupEnable => matches!(state, GroupState::GroupDisabled),
        BlockKind::GroupDisable => may_disable(state, moves),
        BlockKind::GroupStop
        | BlockKind::GroupHalt
        | BlockKind::MoveLinearAbsolute
        | BlockKind::MoveCircularAbsolute => {
            matches!(state, GroupState::GroupStandby | GroupState::GroupMoving)
        }
        _ => false,
    }
}

// Whether a group in this state may be disabled.
fn may_disable(state: GroupState, moves: bool) -> bool
    ensures { result ≡ spec.may_come BlockKind.GroupDisable state moves }
{
    match state {
        GroupState::GroupDisabled | GroupState::GroupStandby => true,
        GroupState::GroupErrorStop => !moves,
        _ => false,
    }
}

/// The event by which a command that moves or brakes the path becomes active.
pub fn event_of(kind: BlockKind) -> GroupEvent
    ensures { result ≡ spec.event_of kind }
{
    match kind {
        BlockKind::GroupStop => GroupEvent::StopAdmitted,
        _ => GroupEvent::MoveAdmitted,
    }
}
