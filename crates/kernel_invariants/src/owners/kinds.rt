// Whether commands are of the kinds of their instances' blocks.

ghost use Rattle.std.specs.Prelude.{◌≡◌, ◌↔◌, ◌<◌, IfSome, IsTrue, ℕ, Some, length, slice_get, true};
ghost use Rattle.command_pool.specs.Waiting.{queue_of};
ghost use Rattle.command_pool.specs.declared.wanted.Wanted as wanted;
ghost use Rattle.kernel_invariants.specs.OfBlocks.{AreOfBlocks, HasParts};
ghost use Rattle.motion_history.specs.declared.config.BlockDef as definition;
ghost use Rattle.motion_kernel.specs.kept.Machine.{IsSized};
ghost use Rattle.motion_kernel.specs.owners.Blocks.{command_state_at};
ghost use Rattle.motion_kernel.specs.owners.Kinds as kinds;
ghost use Rattle.motion_kernel.specs.owners.Kinds.{AreOfTheirBlocks, IsOfAReset, IsOfItsBlock};
ghost use Rattle.motion_kernel.specs.owners.Objects.{a_group, an_axis, IsThere, Object};

use crate::owners::commands::{axis_owners, group_owners};
use axis_core::Wanted;
use motion_history::{BlockKind, Config};
use motion_kernel::Start;

// Whether the block of an instance, if there is one, is of this kind.
fn is_of_kind(config: &Config, instance: u16, kind: BlockKind) -> bool
    ensures { IsTrue result ↔ ((b : definition.BlockDef) →
        slice_get config.now.blocks instance ≡ Some b → kind ≡ b.kind) }
{
    match config.blocks().get(instance as usize) {
        Some(block) => block.kind == kind,
        None => true,
    }
}

// Whether a command is of the kind of its instance's block.
fn is_of_its_block(config: &Config, wanted: &Wanted) -> bool
    ensures { IsTrue result ↔ IsOfItsBlock config.now wanted.now }
{
    match wanted.owner {
        Some(instance) => is_of_kind(config, instance, wanted.kind),
        None => true,
    }
}

// Whether the command that waits at a place of a list, if there is one, is.
fn is_of_its_block_at(config: &Config, start: &Start, list: u8, place: u8) -> bool
    requires { list < length start.now.queues }
    ensures { IsTrue result ↔ ((w : wanted.Wanted) →
        slice_get (queue_of start.now.queues list) place ≡ Some w → IsOfItsBlock config.now w) }
{
    match start.waiting(list, place) {
        Some(wanted) => is_of_its_block(config, wanted),
        None => true,
    }
}

// Whether all commands that wait in a list are.
fn are_of_blocks(config: &Config, start: &Start, list: u8) -> bool
    requires { list < length start.now.queues }
    ensures { IsTrue result ↔ AreOfBlocks config.now (queue_of start.now.queues list) }
{
    for place in 0..start.waiting_count(list) {
        if !is_of_its_block_at(config, start, list, place) {
            return false;
        }
    }
    true
}

// Whether the active command, if there is one, is.
fn is_active_of_its_block(config: &Config, active: &Option<Wanted>) -> bool
    ensures { IsTrue result ↔ IfSome active.now (IsOfItsBlock config.now) }
{
    match active {
        Some(wanted) => is_of_its_block(config, wanted),
        None => true,
    }
}

// Whether a block of this kind resets errors.
fn is_reset(kind: BlockKind) -> bool
    ensures { result ≡ kinds.is_reset kind }
{
    matches!(kind, BlockKind::Reset | BlockKind::GroupReset)
}

// Whether the block of an instance, if there is one, does.
fn resets(config: &Config, instance: u16) -> bool
    ensures { IsTrue result ↔ ((b : definition.BlockDef) →
        slice_get config.now.blocks instance ≡ Some b → kinds.is_reset b.kind ≡ true) }
{
    match config.blocks().get(instance as usize) {
        Some(block) => is_reset(block.kind),
        None => true,
    }
}

// Whether the owner of a pending reset, if there is one, has a block that resets.
fn is_of_a_reset(config: &Config, owner: Option<u16>) -> bool
    ensures { IsTrue result ↔ IsOfAReset config.now owner }
{
    match owner {
        Some(instance) => resets(config, instance),
        None => true,
    }
}

// Whether an active command and the owner of a pending reset are.
fn is_of(config: &Config, active: &Option<Wanted>, reset: Option<u16>) -> bool
    ensures { IsTrue result ↔
        (IfSome active.now (IsOfItsBlock config.now) × IsOfAReset config.now reset) }
{
    is_active_of_its_block(config, active) && is_of_a_reset(config, reset)
}

// Whether these and what waits in a list are.
fn are_of(
    config: &Config,
    start: &Start,
    active: &Option<Wanted>,
    reset: Option<u16>,
    list: u8,
) -> bool
    requires { list < length start.now.queues }
    ensures { IsTrue result ↔ HasParts config.now active.now reset
        (queue_of start.now.queues list) }
{
    is_of(config, active, reset) && are_of_blocks(config, start, list)
}

// Whether the commands of an axis are of their blocks.
fn are_of_an_axis(config: &Config, start: &Start, axis: u8) -> bool
    requires sized { IsSized config.now start.now }
    requires there { axis < length start.now.axes }
    ensures { IsTrue result ↔
        AreOfTheirBlocks config.now (command_state_at start.now (an_axis axis)) }
{
    let owners = axis_owners(start, axis);
    match start.axis(axis) {
        Some(now) => are_of(config, start, &now.active, owners.reset, axis),
        None => true,
    }
}

// Whether the commands of a group are.
fn are_of_a_group(config: &Config, start: &Start, group: u8) -> bool
    requires sized { IsSized config.now start.now }
    requires there { group < length start.now.groups }
    ensures { IsTrue result ↔
        AreOfTheirBlocks config.now (command_state_at start.now (a_group group)) }
{
    let owners = group_owners(start, group);
    let list = config.axes().len() as u8 + group;
    match start.group(group) {
        Some(on) => are_of(config, start, &on.group.active, owners.reset, list),
        None => true,
    }
}

// Whether those of all axes are.
fn are_of_all_axes(config: &Config, start: &Start) -> bool
    requires { IsSized config.now start.now }
    ensures yes { IsTrue result → (n : ℕ) → n < length start.now.axes →
        AreOfTheirBlocks config.now (command_state_at start.now (an_axis n)) }
    ensures no { ((n : ℕ) → n < length start.now.axes →
        AreOfTheirBlocks config.now (command_state_at start.now (an_axis n))) → IsTrue result }
{
    for axis in 0..config.axes().len() {
        if !are_of_an_axis(config, start, axis as u8) {
            return false;
        }
    }
    true
}

// Whether those of all groups are.
fn are_of_all_groups(config: &Config, start: &Start) -> bool
    requires { IsSized config.now start.now }
    ensures yes { IsTrue result → (j : ℕ) → j < length start.now.groups →
        AreOfTheirBlocks config.now (command_state_at start.now (a_group j)) }
    ensures no { ((j : ℕ) → j < length start.now.groups →
        AreOfTheirBlocks config.now (command_state_at start.now (a_group j))) → IsTrue result }
{
    for group in 0..config.groups().len() {
        if !are_of_a_group(config, start, group as u8) {
            return false;
        }
    }
    true
}

/// Whether each command of a machine is of the kind of its instance's block, and each pending reset
/// that of a block that resets.
pub fn have_kinds_of_blocks(config: &Config, start: &Start) -> bool
    requires { IsSized config.now start.now }
    ensures { IsTrue result ↔ ((o : Object) → IsThere start.now o →
        AreOfTheirBlocks config.now (command_state_at start.now o)) }
{
    are_of_all_axes(config, start) && are_of_all_groups(config, start)
}
