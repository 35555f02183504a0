// The states of axes, groups and drives, by their names.

ghost use Rattle.std.specs.Prelude.{◌≡◌};
ghost use Rattle.trace_columns.specs.Columns as spec;

use crate::fields::{axis_state_text, drive_state_text, group_state_text};
use plc_types::{AxisState, DriveState, GroupState};

/// The states of an axis; those that come most often stand first.
const AXIS_STATES: [AxisState; 8] = [
    AxisState::DiscreteMotion,
    AxisState::Standstill,
    AxisState::ContinuousMotion,
    AxisState::SynchronizedMotion,
    AxisState::Disabled,
    AxisState::Homing,
    AxisState::Stopping,
    AxisState::ErrorStop,
];

/// The states of a group.
const GROUP_STATES: [GroupState; 6] = [
    GroupState::GroupDisabled,
    GroupState::GroupStandby,
    GroupState::GroupMoving,
    GroupState::GroupHoming,
    GroupState::GroupStopping,
    GroupState::GroupErrorStop,
];

/// The states of a drive.
const DRIVE_STATES: [DriveState; 8] = [
    DriveState::NotReady,
    DriveState::SwitchOnDisabled,
    DriveState::ReadyToSwitchOn,
    DriveState::SwitchedOn,
    DriveState::OperationEnabled,
    DriveState::QuickStopActive,
    DriveState::FaultReactionActive,
    DriveState::Fault,
];

/// The state of an axis of this name. Those that come most often are recognised by their bytes.
#[tactic(auto, unfolding(crate::specs::Columns::axis_state_of, crate::specs::Fields::axis_state_text))]
pub fn axis_state_of(name: &[u8]) -> Option<AxisState>
    ensures { result ≡ spec.axis_state_of name.now }
{
    match name {
        [
            b'D',
            b'i',
            b's',
            b'c',
            b'r',
            b'e',
            b't',
            b'e',
            b'M',
            b'o',
            b't',
            b'i',
            b'o',
            b'n',
        ] => Some(AxisState::DiscreteMotion),
        [b'S', b't', b'a', b'n', b'd', b's', b't', b'i', b'l', b'l'] => Some(AxisState::Standstill),
        _ => axis_state_among(name),
    }
}

// The state of an axis of this name, looked for among all.
fn axis_state_among(name: &[u8]) -> Option<AxisState>
    ensures { result ≡ spec.axis_state_of name.now }
{
    AXIS_STATES
        .iter()
        .find(|state| axis_state_text(**state).as_bytes() == name)
        .copied()
}

/// The state of a group of this name.
pub fn group_state_of(name: &[u8]) -> Option<GroupState>
    ensures { result ≡ spec.group_state_of name.now }
{
    GROUP_STATES
        .iter()
        .find(|state| group_state_text(**state).as_bytes() == name)
        .copied()
}

/// The state of a drive of this name.
pub fn drive_state_of(name: &[u8]) -> Option<DriveState>
    ensures { result ≡ spec.drive_state_of name.now }
{
    DRIVE_STATES
        .iter()
        .find(|state| drive_state_text(**state).as_bytes() == name)
        .copied()
}
