// Whether a group with its path and the commands that wait satisfies the invariant.

ghost use Rattle.std.specs.Prelude.{◌≡◌, ◌↔◌, ◌⊎◌, IsTrue, ◌<◌, ◌≤◌, [], length, slice_get, Some};
ghost use Rattle.command_pool.specs.Waiting.{queue_of};
ghost use Rattle.command_pool.specs.declared.wanted.Wanted.{Wanted};
ghost use Rattle.group_core.specs.GroupKept.{AreGroupLimits, AreWaiting, IsCount, IsGroupKept, IsPathOf, IsWaiting};
ghost use Rattle.group_core.specs.Seen.{on_path};
ghost use Rattle.group_core.specs.Tracks.{OnPath};
ghost use Rattle.plc_types.specs.declared.group.GroupState.TheVariants.{GroupMoving};
ghost use Rattle.kernel_invariants.specs.Parts.{IsOrdered};

pub mod command;
pub mod path;
pub mod state;
pub mod waiting;

use command::has_command;
use group_core::{GroupOnPath, GroupState, Limits, LinePath};
use motion_kernel::Start;
use path::has_path;
use state::is_in_state;
use waiting::is_waiting;

// Whether a group has 2 to 6 axes.
fn is_count(axes: u8) -> bool
    ensures { IsTrue result ↔ IsCount axes }
{
    2 <= axes && axes <= 6
}

// Whether a group has 2 to 6 axes, is as its state says, and its active command fits it.
fn is_ordered(on: &GroupOnPath<LinePath>) -> bool
    ensures { IsTrue result ↔ IsOrdered on.now.group (on_path on.now.track) }
{
    is_count(on.group.axes) && is_in_state(on) && has_command(&on.group)
}

// Whether the command at a place of a list may wait for a group whose axes have these limits.
fn waits(start: &Start, list: u8, place: u8, limits: &[Limits]) -> bool
    requires there { list < length start.now.queues }
    requires waits { place < length (queue_of start.now.queues list) }
    requires few { length limits.now ≤ 6 }
    ensures { (w : Wanted) → slice_get (queue_of start.now.queues list) place ≡ Some w →
        IsTrue result ↔ IsWaiting (length limits.now) limits.now w }
{
    match start.waiting(list, place) {
        Some(wanted) => is_waiting(limits, wanted),
        None => false,
    }
}

// Whether all commands of a list may wait for a group whose axes have these limits.
fn are_waiting(start: &Start, list: u8, limits: &[Limits]) -> bool
    requires there { list < length start.now.queues }
    requires few { length limits.now ≤ 6 }
    ensures { IsTrue result ↔
        AreWaiting (length limits.now) limits.now (queue_of start.now.queues list) }
{
    for place in 0..start.waiting_count(list) {
        if !waits(start, list, place, limits) {
            return false;
        }
    }
    true
}

// Whether none waits, or the group moves.
fn may_queue(start: &Start, list: u8, on: &GroupOnPath<LinePath>) -> bool
    requires { list < length start.now.queues }
    ensures { IsTrue result ↔
        ((queue_of start.now.queues list ≡ []) ⊎ (on.now.group.state ≡ GroupMoving)) }
{
    start.waiting_count(list) == 0 || matches!(on.group.state, GroupState::GroupMoving)
}

// Whether a group is as it may be, on a path of the axes with these limits if on one.
fn is_on_its_way(limits: &[Limits], on: &GroupOnPath<LinePath>) -> bool
    requires few { length limits.now ≤ 6 }
    requires ranges { AreGroupLimits (length limits.now) limits.now }
    ensures { IsTrue result ↔ (IsOrdered on.now.group (on_path on.now.track)
        × ((p : OnPath) → on_path on.now.track ≡ Some p →
        IsPathOf (length limits.now) limits.now p)) }
{
    is_ordered(on) && has_path(limits, on)
}

// Whether the commands of a list may wait for a group whose axes have these limits.
fn is_queue_kept(start: &Start, list: u8, limits: &[Limits], on: &GroupOnPath<LinePath>) -> bool
    requires there { list < length start.now.queues }
    requires few { length limits.now ≤ 6 }
    ensures { IsTrue result ↔
        (AreWaiting (length limits.now) limits.now (queue_of start.now.queues list)
        × ((queue_of start.now.queues list ≡ []) ⊎ (on.now.group.state ≡ GroupMoving))) }
{
    are_waiting(start, list, limits) && may_queue(start, list, on)
}

// Whether a group whose axes have these limits, and the commands that wait in its list, are so.
pub fn is_group_kept(start: &Start, list: u8, limits: &[Limits], on: &GroupOnPath<LinePath>) -> bool
    requires there { list < length start.now.queues }
    requires few { length limits.now ≤ 6 }
    requires ranges { AreGroupLimits (length limits.now) limits.now }
    requires axes { on.now.group.axes ≡ length limits.now }
    ensures { IsTrue result ↔ IsGroupKept limits.now on.now.group (on_path on.now.track)
        (queue_of start.now.queues list) }
{
    is_on_its_way(limits, on) && is_queue_kept(start, list, limits, on)
}
