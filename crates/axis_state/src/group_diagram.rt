// The group state diagram: what changes the state of a group, and to which state.

ghost use Rattle.std.specs.Prelude.{◌≡◌, ◌≢◌};
ghost use Rattle.axis_state.specs.GroupDiagram.{GroupTransition, IsFrom, next_of};
ghost use Rattle.axis_state.specs.declared.group_diagram.GroupEvent.{GroupEvent};
ghost use Rattle.plc_types.specs.declared.group.GroupState.{GroupState};

use GroupEvent::*;
use plc_types::GroupState;

/// What changes the state of a group (PLCopen Motion Control Part 4, the state diagram).
#[derive(Clone, Copy, Debug, PartialEq, Eq)]
pub enum GroupEvent {
    /// GroupEnable is admitted.
    Enable,
    /// GroupDisable is admitted; in GroupErrorStop it wants path step 0.
    Disable,
    /// A path command or GroupHalt is admitted.
    MoveAdmitted,
    /// The last command is done and none waits.
    LastDone,
    /// GroupStop is admitted.
    StopAdmitted,
    /// The path step is 0, and the GroupStop's Execute is false or it has no owner.
    StopReleased,
    /// A member has an error, or Power is called on it with Enable false.
    MemberError,
    /// GroupReset is done and every member is in Standstill.
    ResetAllStandstill,
    /// GroupReset is done and a member is not in Standstill.
    ResetElse,
}

/// The state of a group after an event that may come in its state.
pub fn group_next(state: GroupState, event: GroupEvent) -> GroupState
    requires { IsFrom state event }
    ensures value { result ≡ next_of event }
    ensures transition { GroupTransition state event result }
    ensures only { (next : GroupState) → GroupTransition state event next → next ≡ result }
{
    match event {
        Enable | LastDone | StopReleased | ResetAllStandstill => GroupState::GroupStandby,
        Disable | ResetElse => GroupState::GroupDisabled,
        MoveAdmitted => GroupState::GroupMoving,
        StopAdmitted => GroupState::GroupStopping,
        MemberError => GroupState::GroupErrorStop,
    }
}

/// No event leads to GroupHoming: no block of this profile homes a group.
pub fn groups_never_home()
    ensures { (event : GroupEvent) → next_of event ≢ GroupState.GroupHoming }
{}
