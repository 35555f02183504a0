// Whether a group is as its state says (PLCopen Motion Control Part 4, the state diagram).

ghost use Rattle.std.specs.Prelude.{◌≡◌, ◌↔◌, IsTrue, None, is_some};
ghost use Rattle.group_core.specs.GroupKept.{IsIdle, IsInState, IsLed, IsStopped};
ghost use Rattle.group_core.specs.Seen.{on_path};
ghost use Rattle.group_core.specs.Tracks as tracks;

use group_core::{GroupOnPath, GroupState, LinePath};

// Whether a group is on a path.
fn is_on_path(on: &GroupOnPath<LinePath>) -> bool
    ensures { result ≡ is_some (on_path on.now.track) }
{
    matches!(on.track, Some(_))
}

// Whether there is a path that moves.
fn is_moving(on: &GroupOnPath<LinePath>) -> bool
    ensures { result ≡ tracks.is_moving (on_path on.now.track) }
{
    match on.track {
        Some(track) => track.motion.place != track.motion.previous,
        None => false,
    }
}

// Whether a group has a command.
fn has_command(on: &GroupOnPath<LinePath>) -> bool
    ensures { result ≡ is_some on.now.group.active }
{
    on.group.active.is_some()
}

// Whether a group is on no path, and has no command.
fn is_idle(on: &GroupOnPath<LinePath>) -> bool
    ensures { IsTrue result ↔ IsIdle (on_path on.now.track) on.now.group.active }
{
    !is_on_path(on) && !has_command(on)
}

// Whether a group is on a path by a command.
fn is_led(on: &GroupOnPath<LinePath>) -> bool
    ensures { IsTrue result ↔ IsLed (on_path on.now.track) on.now.group.active }
{
    is_on_path(on) && has_command(on)
}

// Whether a group is on a path, which rests where it has no command.
fn is_stopped(on: &GroupOnPath<LinePath>) -> bool
    ensures { IsTrue result ↔ IsStopped (on_path on.now.track) on.now.group.active }
{
    is_on_path(on) && (has_command(on) || !is_moving(on))
}

// Whether a group is as its state says.
pub fn is_in_state(on: &GroupOnPath<LinePath>) -> bool
    ensures { IsTrue result ↔
        IsInState on.now.group.state (on_path on.now.track) on.now.group.active }
{
    match on.group.state {
        GroupState::GroupDisabled | GroupState::GroupStandby => is_idle(on),
        GroupState::GroupMoving => is_led(on),
        GroupState::GroupHoming => false,
        GroupState::GroupStopping => is_stopped(on),
        GroupState::GroupErrorStop => !has_command(on),
    }
}
