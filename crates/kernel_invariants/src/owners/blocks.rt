// Whether an instance's block acts on an axis or a group.

ghost use Rattle.std.specs.Prelude.{◌≡◌, ◌↔◌, IsTrue, slice_get};
ghost use Rattle.fb_outputs.specs.Steps as step;
ghost use Rattle.kernel_invariants.specs.Owned.{HasBlock, object_by};
ghost use Rattle.motion_kernel.specs.owners.Objects as objects;
ghost use Rattle.motion_kernel.specs.owners.Objects.{has_commands_on};

use motion_history::{BlockDef, BlockKind, Config};

/// An axis or a group, by its number.
#[derive(Clone, Copy)]
pub enum Object {
    Axis(u8),
    Group(u8),
}

/// On which a block acts.
pub fn object_of(block: &BlockDef) -> Object
    ensures { object_by result ≡ objects.object_of block.now }
{
    if block.kind.acts_on_group() {
        Object::Group(block.object)
    } else {
        Object::Axis(block.object)
    }
}

// Whether two are the same.
fn is_same(one: Object, other: Object) -> bool
    ensures { result ≡ objects.is_same (object_by one) (object_by other) }
{
    match (one, other) {
        (Object::Axis(one), Object::Axis(other)) => one == other,
        (Object::Group(one), Object::Group(other)) => one == other,
        (Object::Axis(_), Object::Group(_)) | (Object::Group(_), Object::Axis(_)) => false,
    }
}

/// Whether a block is a Power, which has no commands.
pub fn is_power(block: &BlockDef) -> bool
    ensures { result ≡ step.is_power block.now.kind }
{
    matches!(block.kind, BlockKind::Power)
}

// Whether there is an instance of this number, and its block has its commands there.
fn has_commands(config: &Config, instance: u16, object: Object) -> bool
    ensures { result ≡ has_commands_on (slice_get config.now.blocks instance) (object_by object) }
{
    match config.blocks().get(instance as usize) {
        Some(block) => !is_power(block) && is_same(object_of(block), object),
        None => false,
    }
}

/// Whether an owner, if there is one, is an instance whose block has its commands there.
pub fn has_block(config: &Config, owner: Option<u16>, object: Object) -> bool
    ensures { IsTrue result ↔ HasBlock config.now (object_by object) owner }
{
    match owner {
        Some(instance) => has_commands(config, instance, object),
        None => true,
    }
}
