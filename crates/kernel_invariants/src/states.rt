// Whether errors, holds, commands and paths are where the states of axes and groups have them.

ghost use Rattle.std.specs.Prelude.{◌≡◌, ◌≢◌, ◌↔◌, ◌<◌, ◌≤◌, IsTrue, ℕ, None, Some, length, slice_get};
ghost use Rattle.axis_core.specs.Led as led;
ghost use Rattle.axis_state.specs.States as axis_states;
ghost use Rattle.plc_types.specs.declared.kind.BlockKind.TheVariants as kind;
ghost use Rattle.group_core.specs.Seen.{on_path};
ghost use Rattle.group_core.specs.States as group_states;
ghost use Rattle.group_core.specs.Targets.{IsToward};
ghost use Rattle.kernel_invariants.specs.States.{AxisIsInState, GroupIsInState, IsErrorWhere};
ghost use Rattle.motion_kernel.specs.Machine.{axis_at, group_at};
ghost use Rattle.motion_kernel.specs.Seen.{placed};
ghost use Rattle.motion_kernel.specs.kept.Machine.{IsSized};

use axis_core::{Axis, AxisState, BlockKind, Wanted};
use group_core::{Group, GroupOnPath, GroupState, LinePath};
use motion_history::Config;
use motion_kernel::Start;

// Whether a number is that of an error, or 0 where there is none.
fn is_error_where(stopped: bool, number: u16) -> bool
    ensures { IsTrue result ↔ IsErrorWhere stopped number }
{
    if stopped {
        101 <= number && number <= 106
    } else {
        number == 0
    }
}

// Whether an axis is in ErrorStop.
fn is_error_stop(state: AxisState) -> bool
    ensures { result ≡ axis_states.is_error_stop state }
{
    matches!(state, AxisState::ErrorStop)
}

// Whether it is in Stopping.
fn is_stopping(state: AxisState) -> bool
    ensures { result ≡ axis_states.is_stopping state }
{
    matches!(state, AxisState::Stopping)
}

// Whether its state is that of a command that moves it.
fn is_of_command(state: AxisState) -> bool
    ensures { result ≡ led.is_of_command state }
{
    matches!(
        state,
        AxisState::DiscreteMotion | AxisState::ContinuousMotion | AxisState::Homing
    )
}

// Whether an axis has an error, a hold and an active command as its state says.
fn is_axis_in_state(axis: &Axis) -> bool
    ensures { IsTrue result ↔ AxisIsInState axis.now }
{
    is_error_where(is_error_stop(axis.state), axis.error)
        && (is_stopping(axis.state) || axis.hold.is_none())
        && (!is_of_command(axis.state) || axis.active.is_some())
}

// Whether the axis of a number has.
fn is_axis_in_state_at(start: &Start, axis: u8) -> bool
    requires { axis < length start.now.axes }
    ensures { IsTrue result ↔ AxisIsInState (axis_at start.now axis) }
{
    match start.axis(axis) {
        Some(now) => is_axis_in_state(now),
        None => false,
    }
}

/// Whether each axis has an error exactly in ErrorStop, is held only in Stopping, and has an active
/// command in the states of a command that moves it.
pub fn are_axes_in_state(config: &Config, start: &Start) -> bool
    requires { IsSized config.now start.now }
    ensures yes { IsTrue result → (n : ℕ) → n < length start.now.axes →
        AxisIsInState (axis_at start.now n) }
    ensures no { ((n : ℕ) → n < length start.now.axes → AxisIsInState (axis_at start.now n)) →
        IsTrue result }
{
    for axis in 0..config.axes().len() {
        if !is_axis_in_state_at(start, axis as u8) {
            return false;
        }
    }
    true
}

// Whether a group is in GroupErrorStop.
fn is_group_error_stop(state: GroupState) -> bool
    ensures { result ≡ group_states.is_error_stop state }
{
    matches!(state, GroupState::GroupErrorStop)
}

// Whether it is in GroupStopping.
fn is_group_stopping(state: GroupState) -> bool
    ensures { result ≡ group_states.is_stopping state }
{
    matches!(state, GroupState::GroupStopping)
}

// Whether a command is a line.
fn is_line(wanted: &Wanted) -> bool
    ensures { IsTrue result ↔ (wanted.now.kind ≡ kind.MoveLinearAbsolute) }
{
    matches!(wanted.kind, BlockKind::MoveLinearAbsolute)
}

// Whether the path of a group leads to the targets of its active line, where it has one.
fn is_toward(on: &GroupOnPath<LinePath>) -> bool
    ensures { IsTrue result ↔ IsToward on.now.group.active (on_path on.now.track) }
{
    match (&on.group.active, &on.track) {
        (Some(wanted), Some(track)) => { !is_line(wanted) || track.path.targets == wanted.targets }
        (None, Some(_)) | (Some(_), None) | (None, None) => true,
    }
}

// Whether a group has an error and a hold as its state says.
fn is_group_in_state(group: &Group) -> bool
    ensures { IsTrue result ↔ GroupIsInState group.now }
{
    is_error_where(is_group_error_stop(group.state), group.error)
        && (is_group_stopping(group.state) || group.hold.is_none())
}

// Whether the group of a number has, and its path leads to the targets of its active line.
fn is_group_in_state_at(start: &Start, group: u8) -> bool
    requires { group < length start.now.groups }
    ensures { IsTrue result ↔ (GroupIsInState (group_at start.now group).group
        × IsToward (group_at start.now group).group.active (group_at start.now group).path) }
{
    match start.group(group) {
        Some(on) => is_group_in_state(&on.group) && is_toward(on),
        None => false,
    }
}

/// Whether each group has an error exactly in GroupErrorStop, and is held only in GroupStopping,
/// and the path of an active line leads to its targets.
pub fn are_groups_in_state(config: &Config, start: &Start) -> bool
    requires { IsSized config.now start.now }
    ensures yes { IsTrue result → (j : ℕ) → j < length start.now.groups →
        (GroupIsInState (group_at start.now j).group
        × IsToward (group_at start.now j).group.active (group_at start.now j).path) }
    ensures no { ((j : ℕ) → j < length start.now.groups →
        (GroupIsInState (group_at start.now j).group
        × IsToward (group_at start.now j).group.active (group_at start.now j).path)) →
        IsTrue result }
{
    for group in 0..config.groups().len() {
        if !is_group_in_state_at(start, group as u8) {
            return false;
        }
    }
    true
}
