// Whether instances show the commands that they have.

ghost use Rattle.std.specs.Prelude.{◌≡◌, ◌↔◌, ◌<◌, ◌≤◌, IsTrue, ℕ, Some, length, slice_get};
ghost use Rattle.buffer_modes.specs.Owners as owners;
ghost use Rattle.command_pool.specs.Waiting.{queue_of};
ghost use Rattle.kernel_invariants.specs.Showing.{Shows, ShowsOn, ShowsWhere};
ghost use Rattle.motion_kernel.specs.Machine.{instance_at};
ghost use Rattle.motion_kernel.specs.kept.Machine.{IsSized};
ghost use Rattle.motion_kernel.specs.owners.Blocks.{OwnersHaveBlocks};
ghost use Rattle.motion_kernel.specs.owners.Commands as shown;
ghost use Rattle.motion_kernel.specs.owners.Commands.{ActiveAreShown, CommandsAreShown};
ghost use Rattle.motion_kernel.specs.owners.Objects.{a_group, an_axis, IsThere};

use crate::owners::blocks::{Object, is_power, object_of};
use crate::owners::commands::{Owners, axis_owners, group_owners, owner_at};
use fb_outputs::Progress;
use motion_history::{BlockDef, Config};
use motion_kernel::Start;

// 1 where an owner is this instance, else 0.
#[tactic(auto, unfolding(buffer_modes::specs::Owners::owner_count))]
fn owner_count(owner: Option<u16>, instance: u16) -> u8
    ensures count { result ≡ owners.owner_count instance owner }
    ensures one { result ≤ 1 }
{
    match owner {
        Some(owner) => { if owner == instance { 1 } else { 0 } }
        None => 0,
    }
}

// How many of the commands that wait in a list an instance has.
fn waits_in(start: &Start, list: u8, instance: u16) -> u8
    requires { list < length start.now.queues }
    ensures count { result ≡ owners.waits_of instance (queue_of start.now.queues list) }
    ensures few { result ≤ 8 }
{
    let mut count = 0;
    for place in 0..start.waiting_count(list) {
        count += owner_count(owner_at(start, list, place), instance);
    }
    count
}

// How many commands an instance shows that is so far.
fn commands_shown(progress: Progress) -> u8
    ensures { result ≡ shown.commands_shown progress }
{
    match progress {
        Progress::Waiting | Progress::Active => 1,
        Progress::Idle | Progress::Ended { .. } => 0,
    }
}

// Whether it shows that its command is active: 1, else 0.
fn active_shown(progress: Progress) -> u8
    ensures { result ≡ shown.active_shown progress }
{
    match progress {
        Progress::Active => 1,
        Progress::Idle | Progress::Waiting | Progress::Ended { .. } => 0,
    }
}

// Whether an instance that is so far shows the commands that it has.
fn shows(owners: &Owners, waits: u8, instance: u16, progress: Progress) -> bool
    requires { waits ≤ 8 }
    ensures { IsTrue result ↔ Shows instance waits owners.now progress }
{
    let active = owner_count(owners.active, instance);
    let reset = owner_count(owners.reset, instance);
    active + waits + reset == commands_shown(progress) && active == active_shown(progress)
}

// Whether an instance that is so far shows the commands that it has of an axis.
fn shows_on_axis(start: &Start, axis: u8, instance: u16, progress: Progress) -> bool
    requires there { axis < length start.now.axes }
    requires list { axis < length start.now.queues }
    requires progress { progress ≡ (instance_at start.now.instances instance).progress }
    ensures { IsTrue result ↔ ShowsOn start.now instance (an_axis axis) }
{
    let waits = waits_in(start, axis, instance);
    shows(&axis_owners(start, axis), waits, instance, progress)
}

// Whether an instance that is so far shows the commands that it has of a group.
fn shows_on_group(
    config: &Config,
    start: &Start,
    group: u8,
    instance: u16,
    progress: Progress,
) -> bool
    requires sized { IsSized config.now start.now }
    requires there { group < length start.now.groups }
    requires progress { progress ≡ (instance_at start.now.instances instance).progress }
    ensures { IsTrue result ↔ ShowsOn start.now instance (a_group group) }
{
    let list = config.axes().len() as u8 + group;
    let waits = waits_in(start, list, instance);
    shows(&group_owners(start, group), waits, instance, progress)
}

// Whether it does where there is such an axis.
fn shows_on_axis_there(
    config: &Config,
    start: &Start,
    axis: u8,
    instance: u16,
    progress: Progress,
) -> bool
    requires sized { IsSized config.now start.now }
    requires progress { progress ≡ (instance_at start.now.instances instance).progress }
    ensures { IsTrue result ↔ (IsThere start.now (an_axis axis) →
        ShowsOn start.now instance (an_axis axis)) }
{
    if (axis as usize) < config.axes().len() {
        shows_on_axis(start, axis, instance, progress)
    } else {
        true
    }
}

// Whether it does where there is such a group.
fn shows_on_group_there(
    config: &Config,
    start: &Start,
    group: u8,
    instance: u16,
    progress: Progress,
) -> bool
    requires sized { IsSized config.now start.now }
    requires progress { progress ≡ (instance_at start.now.instances instance).progress }
    ensures { IsTrue result ↔ (IsThere start.now (a_group group) →
        ShowsOn start.now instance (a_group group)) }
{
    if (group as usize) < config.groups().len() {
        shows_on_group(config, start, group, instance, progress)
    } else {
        true
    }
}

// Whether the instance of a block, which is so far, shows the commands that it has where its block
// acts.
fn shows_where(
    config: &Config,
    start: &Start,
    instance: u16,
    block: &BlockDef,
    progress: Progress,
) -> bool
    requires sized { IsSized config.now start.now }
    requires block { slice_get config.now.blocks instance ≡ Some block.now }
    requires progress { progress ≡ (instance_at start.now.instances instance).progress }
    ensures { IsTrue result ↔ ShowsWhere config.now start.now instance }
{
    if is_power(block) {
        return true;
    }
    match object_of(block) {
        Object::Axis(axis) => shows_on_axis_there(config, start, axis, instance, progress),
        Object::Group(group) => shows_on_group_there(config, start, group, instance, progress),
    }
}

// Whether the instance of a number does.
fn shows_at(config: &Config, start: &Start, instance: u16) -> bool
    requires sized { IsSized config.now start.now }
    requires there { instance < length config.now.blocks }
    ensures { IsTrue result ↔ ShowsWhere config.now start.now instance }
{
    let block = &config.blocks()[instance as usize];
    match start.instance(instance) {
        Some(now) => shows_where(config, start, instance, block, now.progress()),
        None => false,
    }
}

// Whether all instances do.
fn all_show(config: &Config, start: &Start) -> bool
    requires { IsSized config.now start.now }
    ensures yes { IsTrue result → (k : ℕ) → k < length config.now.blocks →
        ShowsWhere config.now start.now k }
    ensures no { ((k : ℕ) → k < length config.now.blocks →
        ShowsWhere config.now start.now k) → IsTrue result }
{
    for instance in 0..config.blocks().len() {
        if !shows_at(config, start, instance as u16) {
            return false;
        }
    }
    true
}

/// Whether each instance has a command exactly while it shows one, where its block acts, and the
/// active one exactly while it shows so. Nobody else has commands there.
pub fn are_commands_shown(config: &Config, start: &Start) -> bool
    requires sized { IsSized config.now start.now }
    requires owners { OwnersHaveBlocks config.now start.now }
    ensures { IsTrue result ↔
        (CommandsAreShown config.now start.now × ActiveAreShown config.now start.now) }
{
    all_show(config, start)
}
