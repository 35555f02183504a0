// Whether the commands of an axis or a group are of instances whose blocks have theirs there.

ghost use Rattle.std.specs.Prelude.{◌≡◌, ◌↔◌, IsTrue, ◌<◌, length, slice_get};
ghost use Rattle.buffer_modes.specs.Owners.{owner_by};
ghost use Rattle.buffer_modes.specs.Resets as resets;
ghost use Rattle.command_pool.specs.Waiting.{queue_of};
ghost use Rattle.kernel_invariants.specs.Owned.{HaveAllBlocks, HaveBlocks, object_by, owners_of};
ghost use Rattle.motion_kernel.specs.kept.Machine.{IsSized};
ghost use Rattle.motion_kernel.specs.owners.Blocks.{OwnersHaveBlocksOn, command_state_at};
ghost use Rattle.motion_kernel.specs.owners.Objects.{a_group, an_axis};

use crate::owners::blocks::{Object, has_block};
use axis_core::{PendingReset, Wanted};
use motion_history::Config;
use motion_kernel::Start;

/// Who has the active command and the pending reset of an axis or a group, and who holds it in
/// stopping.
#[derive(Clone, Copy)]
pub struct Owners {
    pub active: Option<u16>,
    pub reset: Option<u16>,
    pub hold: Option<u16>,
}

// What an axis or a group that is not there would have.
const NOBODY: Owners = Owners {
    active: None,
    reset: None,
    hold: None,
};

// Who has the active command.
fn active_owner(active: &Option<Wanted>) -> Option<u16>
    ensures { result ≡ owner_by active.now }
{
    match active {
        Some(wanted) => wanted.owner,
        None => None,
    }
}

// Who has the pending reset.
fn reset_owner(reset: &Option<PendingReset>) -> Option<u16>
    ensures { result ≡ resets.reset_owner reset.now }
{
    match reset {
        Some(pending) => pending.owner,
        None => None,
    }
}

/// Who has the command that waits at a place of a list.
pub fn owner_at(start: &Start, list: u8, place: u8) -> Option<u16>
    requires { list < length start.now.queues }
    ensures { result ≡ owner_by (slice_get (queue_of start.now.queues list) place) }
{
    match start.waiting(list, place) {
        Some(wanted) => wanted.owner,
        None => None,
    }
}

/// The owners of an axis.
pub fn axis_owners(start: &Start, number: u8) -> Owners
    requires { number < length start.now.axes }
    ensures { result ≡ owners_of (command_state_at start.now (an_axis number)) }
{
    match start.axis(number) {
        Some(axis) => Owners {
            active: active_owner(&axis.active),
            reset: reset_owner(&axis.reset),
            hold: axis.hold,
        },
        None => NOBODY,
    }
}

/// The owners of a group.
pub fn group_owners(start: &Start, number: u8) -> Owners
    requires { number < length start.now.groups }
    ensures { result ≡ owners_of (command_state_at start.now (a_group number)) }
{
    match start.group(number) {
        Some(on) => Owners {
            active: active_owner(&on.group.active),
            reset: reset_owner(&on.group.reset),
            hold: on.group.hold,
        },
        None => NOBODY,
    }
}

// Whether all of these are instances whose blocks have their commands there.
fn have_blocks(config: &Config, owners: &Owners, object: Object) -> bool
    ensures { IsTrue result ↔ HaveBlocks config.now (object_by object) owners.now }
{
    has_block(config, owners.active, object)
        && has_block(config, owners.reset, object)
        && has_block(config, owners.hold, object)
}

// Whether the owners of all commands that wait in a list are.
fn have_all_blocks(config: &Config, start: &Start, list: u8, object: Object) -> bool
    requires { list < length start.now.queues }
    ensures { IsTrue result ↔
        HaveAllBlocks config.now (object_by object) (queue_of start.now.queues list) }
{
    for place in 0..start.waiting_count(list) {
        if !has_block(config, owner_at(start, list, place), object) {
            return false;
        }
    }
    true
}

/// Whether whoever has a command of an axis, or holds it, is an instance whose block has its
/// commands there.
pub fn axis_owners_have_blocks(config: &Config, start: &Start, number: u8) -> bool
    requires sized { IsSized config.now start.now }
    requires there { number < length start.now.axes }
    ensures { IsTrue result ↔ OwnersHaveBlocksOn config.now start.now (an_axis number) }
{
    let axis = Object::Axis(number);
    have_blocks(config, &axis_owners(start, number), axis)
        && have_all_blocks(config, start, number, axis)
}

/// Whether whoever has a command of a group, or holds it, is an instance whose block has its
/// commands there.
pub fn group_owners_have_blocks(config: &Config, start: &Start, number: u8) -> bool
    requires sized { IsSized config.now start.now }
    requires there { number < length start.now.groups }
    ensures { IsTrue result ↔ OwnersHaveBlocksOn config.now start.now (a_group number) }
{
    let group = Object::Group(number);
    let list = config.axes().len() as u8 + number;
    have_blocks(config, &group_owners(start, number), group)
        && have_all_blocks(config, start, list, group)
}
