// In which state a group and its axes are.

ghost use Rattle.std.specs.List.{list_any};
ghost use Rattle.std.specs.Prelude.{◌≡◌};
ghost use Rattle.axis_state.specs.States as axes;
ghost use Rattle.group_core.specs.States as spec;

use plc_types::{AxisState, GroupState};

/// Whether the group is in GroupStopping.
pub fn is_stopping(state: GroupState) -> bool
    ensures { result ≡ spec.is_stopping state }
{
    matches!(state, GroupState::GroupStopping)
}

/// Whether the group is in GroupErrorStop.
pub fn is_error_stop(state: GroupState) -> bool
    ensures { result ≡ spec.is_error_stop state }
{
    matches!(state, GroupState::GroupErrorStop)
}

/// Whether an error of a member, or its Power with Enable false, stops a group in this state.
pub fn may_fail(state: GroupState) -> bool
    ensures { result ≡ spec.may_fail state }
{
    matches!(
        state,
        GroupState::GroupStandby | GroupState::GroupMoving | GroupState::GroupStopping
    )
}

/// Whether any of some axes is Disabled.
pub fn any_disabled(states: &[AxisState]) -> bool
    ensures { result ≡ list_any axes.is_disabled states.now }
{
    states
        .iter()
        .any(|state| matches!(state, AxisState::Disabled))
}

/// Whether any of some axes is in ErrorStop.
pub fn any_in_error_stop(states: &[AxisState]) -> bool
    ensures { result ≡ list_any axes.is_error_stop states.now }
{
    states
        .iter()
        .any(|state| matches!(state, AxisState::ErrorStop))
}

/// Whether any of some axes is in Stopping.
pub fn any_in_stopping(states: &[AxisState]) -> bool
    ensures { result ≡ list_any axes.is_stopping states.now }
{
    states
        .iter()
        .any(|state| matches!(state, AxisState::Stopping))
}

/// Whether any of some axes is in Homing.
pub fn any_homing(states: &[AxisState]) -> bool
    ensures { result ≡ list_any axes.is_homing states.now }
{
    states
        .iter()
        .any(|state| matches!(state, AxisState::Homing))
}

/// Whether any of some axes is not in Standstill.
pub fn any_moved(states: &[AxisState]) -> bool
    ensures { result ≡ list_any spec.is_moved states.now }
{
    states
        .iter()
        .any(|state| !matches!(state, AxisState::Standstill))
}
