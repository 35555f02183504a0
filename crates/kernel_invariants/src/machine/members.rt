// Whether an axis of a group is where the group says (PLCopen Motion Control Part 4).

ghost use Rattle.std.specs.Prelude.{◌≡◌, ◌↔◌, IsTrue, ◌<◌, [], length, Some, is_some, true, if◌then◌else◌};
ghost use Rattle.axis_core.specs.Cores.{Core};
ghost use Rattle.axis_core.specs.blocks.Path as path;
ghost use Rattle.plc_types.specs.declared.axis_state.AxisState.TheVariants as state;
ghost use Rattle.group_core.specs.GroupKept as kept;
ghost use Rattle.group_core.specs.Members.{StandsOn};
ghost use Rattle.group_core.specs.Seen.{on_path, way_of};
ghost use Rattle.group_core.specs.Tracks.{OnPath, place_on};
ghost use Rattle.kernel_invariants.specs.Parts.{IsOnLine, track_of};
ghost use Rattle.motion_kernel.specs.Machine.{group_at};
ghost use Rattle.motion_kernel.specs.Seen.{placed};
ghost use Rattle.motion_kernel.specs.kept.Machine.{IsLed, IsMember, IsOnItsPath};

use axis_core::{Axis, AxisState};
use group_core::{GroupOnPath, GroupState, LinePath, Path, Track};
use motion_kernel::{Membership, Start};

// Whether an axis follows its group's path.
pub fn is_on_path(axis: &Axis) -> bool
    ensures { result ≡ path.is_on_path axis.now }
{
    matches!(axis.state, AxisState::SynchronizedMotion) && axis.active.is_none()
}

// Where an axis stood on a path before its current place.
fn place_before(track: &Track<LinePath>, place: usize) -> i64
    requires { IsOnLine (track_of track.now) place }
    ensures { result ≡ place_on (way_of track.now.path) place track.now.motion.previous }
{
    track.path.place(place as u8, track.motion.previous)
}

// Where an axis stands on a path.
fn place_now(track: &Track<LinePath>, place: usize) -> i64
    requires { IsOnLine (track_of track.now) place }
    ensures { result ≡ place_on (way_of track.now.path) place track.now.motion.place }
{
    track.path.place(place as u8, track.motion.place)
}

// Whether the setpoints of an axis are its places on a path.
fn stands_on(track: &Track<LinePath>, place: usize, axis: &Axis) -> bool
    requires { IsOnLine (track_of track.now) place }
    ensures { IsTrue result ↔
        StandsOn (track_of track.now) place axis.now.previous axis.now.setpoint }
{
    axis.previous == place_before(track, place) && axis.setpoint == place_now(track, place)
}

// Whether the setpoints of an axis are its places on the path of a group, which has one.
fn is_on_its_path(on: &GroupOnPath<LinePath>, place: usize, axis: &Axis) -> bool
    requires { (p : OnPath) → on_path on.now.track ≡ Some p → IsOnLine p place }
    ensures { (c : Core) → c.axis ≡ axis.now →
        IsTrue result ↔ IsOnItsPath (placed on.now) place c }
{
    match &on.track {
        Some(track) => stands_on(track, place, axis),
        None => false,
    }
}

// Whether the axes of a group in this state stand within their limits.
fn is_within(state: GroupState) -> bool
    ensures { result ≡ kept.is_within state }
{
    !matches!(
        state,
        GroupState::GroupDisabled | GroupState::GroupErrorStop
    )
}

// Whether an axis is in the state in which its group leads it: on the path where there is one, else
// in Standstill.
fn has_led_state(on: &GroupOnPath<LinePath>, axis: &Axis) -> bool
    ensures { IsTrue result ↔ (axis.now.state
        ≡ (if is_some (on_path on.now.track) then state.SynchronizedMotion else state.Standstill)) }
{
    match on.track {
        Some(_) => matches!(axis.state, AxisState::SynchronizedMotion),
        None => matches!(axis.state, AxisState::Standstill),
    }
}

// Whether an axis, for which no command waits where it is alone, is led by its group.
fn is_led(on: &GroupOnPath<LinePath>, axis: &Axis, alone: bool) -> bool
    ensures { (c : Core) → c.axis ≡ axis.now → IsTrue alone ↔ (c.waiting ≡ []) →
        IsTrue result ↔ IsLed (placed on.now) c }
{
    axis.active.is_none() && alone && has_led_state(on, axis)
}

// Whether an axis that follows its group's path stands on it.
fn follows_its_path(on: &GroupOnPath<LinePath>, place: usize, axis: &Axis) -> bool
    requires { (p : OnPath) → on_path on.now.track ≡ Some p → IsOnLine p place }
    ensures { (c : Core) → c.axis ≡ axis.now →
        IsTrue result ↔ (path.is_on_path c.axis ≡ true → IsOnItsPath (placed on.now) place c) }
{
    !is_on_path(axis) || is_on_its_path(on, place, axis)
}

// Whether an axis is led by its group, where that is enabled and has no error.
fn is_led_within(on: &GroupOnPath<LinePath>, axis: &Axis, alone: bool) -> bool
    ensures { (c : Core) → c.axis ≡ axis.now → IsTrue alone ↔ (c.waiting ≡ []) →
        IsTrue result ↔ (kept.is_within on.now.group.state ≡ true → IsLed (placed on.now) c) }
{
    !is_within(on.group.state) || is_led(on, axis, alone)
}

// Whether an axis is where its group says.
fn is_member(on: &GroupOnPath<LinePath>, place: usize, axis: &Axis, alone: bool) -> bool
    requires { (p : OnPath) → on_path on.now.track ≡ Some p → IsOnLine p place }
    ensures { (c : Core) → c.axis ≡ axis.now → IsTrue alone ↔ (c.waiting ≡ []) →
        IsTrue result ↔ IsMember (placed on.now) place c }
{
    follows_its_path(on, place, axis) && is_led_within(on, axis, alone)
}

// Whether an axis is where the group of its membership says.
pub fn is_member_at(start: &Start, at: Membership, axis: &Axis, alone: bool) -> bool
    requires there { at.group < length start.now.groups }
    requires few { length start.now.groups < 256 }
    requires lines { (p : OnPath) → (group_at start.now at.group).path ≡ Some p →
        IsOnLine p at.place }
    ensures { (c : Core) → c.axis ≡ axis.now → IsTrue alone ↔ (c.waiting ≡ []) →
        IsTrue result ↔ IsMember (group_at start.now at.group) at.place c }
{
    match start.group(at.group as u8) {
        Some(on) => is_member(on, at.place, axis, alone),
        None => false,
    }
}
