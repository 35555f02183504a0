// Whether an axis of a machine satisfies the invariant.

ghost use Rattle.std.specs.Prelude.{◌≡◌, ◌↔◌, ◌⊎◌, IsTrue, ℕ, ◌<◌, [], length, slice_get, Some};
ghost use Rattle.axis_core.specs.AxisKept.{AreWaiting, IsCoreKept, IsWaiting, MayQueue};
ghost use Rattle.axis_core.specs.Cores.{core_at};
ghost use Rattle.command_pool.specs.Waiting.{queue_of};
ghost use Rattle.command_pool.specs.declared.wanted.Wanted.{Wanted};
ghost use Rattle.plc_types.specs.Limits.{AreLimits};
ghost use Rattle.motion_kernel.specs.kept.Machine.{IsAxisKept, IsGroupKept, IsPlaced, IsSized};
ghost use Rattle.motion_kernel.specs.kept.Machine as machine;
ghost use Rattle.motion_kernel.specs.members.Members as memberships;

use crate::axis::is_axis_kept;
use crate::axis::waiting::{is_waiting, may_queue};
use crate::limits::are_same;
use crate::machine::limits_of;
use crate::machine::members::{is_member_at, is_on_path};
use axis_core::{Axis, Limits};
use motion_history::Config;
use motion_kernel::{Start, membership_of};

// Whether the command at a place of a list may wait for an axis with these limits.
fn waits(start: &Start, list: u8, place: u8, limits: &Limits) -> bool
    requires there { list < length start.now.queues }
    requires waits { place < length (queue_of start.now.queues list) }
    requires limits { AreLimits limits.now }
    ensures { (w : Wanted) → slice_get (queue_of start.now.queues list) place ≡ Some w →
        IsTrue result ↔ IsWaiting limits.now w }
{
    match start.waiting(list, place) {
        Some(wanted) => is_waiting(limits, wanted),
        None => false,
    }
}

// Whether all commands of a list may wait for an axis with these limits.
fn are_waiting(start: &Start, list: u8, limits: &Limits) -> bool
    requires there { list < length start.now.queues }
    requires limits { AreLimits limits.now }
    ensures { IsTrue result ↔ AreWaiting limits.now (queue_of start.now.queues list) }
{
    for place in 0..start.waiting_count(list) {
        if !waits(start, list, place, limits) {
            return false;
        }
    }
    true
}

// Whether none waits in a list, or commands may wait after the active one of an axis.
fn may_wait(start: &Start, list: u8, axis: &Axis) -> bool
    requires { list < length start.now.queues }
    ensures { IsTrue result ↔ ((queue_of start.now.queues list ≡ [])
        ⊎ MayQueue axis.now.state axis.now.active) }
{
    start.waiting_count(list) == 0 || may_queue(axis)
}

// Whether an axis and the commands that wait in its list are so.
fn is_core_kept(start: &Start, list: u8, axis: &Axis) -> bool
    requires { list < length start.now.queues }
    ensures { IsTrue result ↔ IsCoreKept (core_at axis.now start.now.queues list []) }
{
    is_axis_kept(axis) && are_waiting(start, list, &axis.limits) && may_wait(start, list, axis)
}

// Whether an axis has the limits of the configuration's axis of a number.
fn has_limits(config: &Config, number: u8, axis: &Axis) -> bool
    requires { number < length config.now.axes }
    ensures { IsTrue result ↔ (axis.now.limits ≡ machine.limits_of config.now number) }
{
    are_same(&axis.limits, &limits_of(config, number))
}

// Whether an axis is on its group's path where the group says so, and on none without a group.
fn is_placed(config: &Config, start: &Start, number: u8, axis: &Axis) -> bool
    requires sized { IsSized config.now start.now }
    requires groups { (j : ℕ) → j < length start.now.groups → IsGroupKept config.now start.now j }
    requires there { number < length start.now.axes }
    ensures { IsTrue result ↔ IsPlaced (memberships.membership_of config.now number) start.now
        (core_at axis.now start.now.queues number []) }
{
    match membership_of(number, config.groups()) {
        Some(at) => is_member_at(start, at, axis, start.waiting_count(number) == 0),
        None => !is_on_path(axis),
    }
}

// Whether an axis of a machine whose groups are kept is so.
pub fn is_axis_at(config: &Config, start: &Start, number: u8) -> bool
    requires sized { IsSized config.now start.now }
    requires groups { (j : ℕ) → j < length start.now.groups → IsGroupKept config.now start.now j }
    requires there { number < length start.now.axes }
    ensures { IsTrue result ↔ IsAxisKept config.now start.now number }
{
    match start.axis(number) {
        Some(axis) => {
            is_core_kept(start, number, axis)
                && has_limits(config, number, axis)
                && is_placed(config, start, number, axis)
        }
        None => false,
    }
}
