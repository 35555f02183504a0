// The machine's parts at opening.

ghost use Rattle.std.specs.Prelude.{◌≡◌, ◌≤◌, All, IfOk, length, map, replicate};
ghost use Rattle.std.specs.List.{AllByRecursion};
ghost use Rattle.axis_core.specs.AxisKept.{IsAxisDef};
ghost use Rattle.axis_core.specs.Cycles.{axis_at_opening};
ghost use Rattle.motion_history.specs.Members.{members_of};
ghost use Rattle.motion_history.specs.Setup.{IsSetup};
ghost use Rattle.motion_history.specs.declared.config.GroupDef.{GroupDef};
ghost use Rattle.motion_kernel.specs.Machine as machine;
ghost use Rattle.motion_kernel.specs.kept.Machine.{AreWhole};
ghost use Rattle.motion_kernel.specs.Seen.{machine_of, placed};

use crate::layout::Layout;
use crate::parts::Parts;
use axis_core::AxisCore;
use command_pool::CommandPool;
use fb_outputs::Instance;
use group_core::{GroupCore, LinePath};
use motion_history::{AxisDef, BlockDef, GroupDef, OutOfMemory, configurations_are_sound};
use plc_types::BlockKind;
use std::alloc::{AllocError, Global};

// The axes at opening.
fn opened_axes(alloc: Global, defs: &[AxisDef]) -> Result<Vec<AxisCore>, AllocError>
    requires { All IsAxisDef defs.now }
    ensures { IfOk result (λ v. v.items ≡ map axis_at_opening defs.now) }
{
    let mut axes = Vec::new(alloc);
    for def in defs {
        axes.push(AxisCore::open(def))?;
    }
    Ok(axes)
}

// One group at opening.
fn opened_group(def: &GroupDef) -> GroupCore<LinePath>
    requires some { 2 ≤ def.now.count }
    requires few { def.now.count ≤ 6 }
    ensures group { placed result ≡ machine.group_at_opening def.now }
    ensures whole { length (members_of def.now) ≡ def.now.count }
{
    let members = &def.axes[..def.count as usize];
    GroupCore::open(members.len() as u8)
}

// The groups at opening.
fn opened_groups(alloc: Global, defs: &[GroupDef]) -> Result<Vec<GroupCore<LinePath>>, AllocError>
    requires { All (λ (d : GroupDef). (2 ≤ d.count) × (d.count ≤ 6)) defs.now }
    ensures opened { IfOk result (λ v. map placed v.items ≡ map machine.group_at_opening defs.now) }
    ensures whole { IfOk result (λ v. AllByRecursion (λ (d : GroupDef). length (members_of d) ≡
        d.count) defs.now) }
{
    let mut groups = Vec::new(alloc);
    for def in defs {
        groups.push(opened_group(def))?;
    }
    Ok(groups)
}

// The instance of a block at opening: a Power shows that its axis is driven where it is ready.
#[tactic(auto, unfolding(crate::specs::Machine::instance_at_opening_of))]
fn opened_instance(block: &BlockDef, axes: &[AxisDef]) -> Instance
    ensures { result ≡ machine.instance_at_opening_of axes.now block.now }
{
    let mut instance = Instance::new(block.kind);
    let ready = match axes.get(block.object as usize) {
        Some(axis) => axis.ready,
        None => false,
    };
    instance.set_reached(matches!(block.kind, BlockKind::Power) && ready);
    instance
}

// The instances at opening.
fn opened_instances(
    alloc: Global,
    blocks: &[BlockDef],
    axes: &[AxisDef],
) -> Result<Vec<Instance>, AllocError>
    ensures { IfOk result (λ v. v.items ≡ map (machine.instance_at_opening_of axes.now)
        blocks.now) }
{
    let mut instances = Vec::new(alloc);
    for block in blocks {
        instances.push(opened_instance(block, axes))?;
    }
    Ok(instances)
}

/// The machine's parts at opening.
pub fn open_parts(alloc: Global, layout: &Layout) -> Result<Parts, OutOfMemory>
    ensures opened { IfOk result (λ p. machine_of p ≡ machine.machine_at_opening layout.now) }
    ensures whole { IfOk result (λ p. AreWhole layout.now) }
{
    // laws
    configurations_are_sound();
    let config = layout.config();
    let lists = config.axes().len() as u8 + config.groups().len() as u8;
    Ok(Parts {
        axes: opened_axes(alloc, config.axes())?,
        groups: opened_groups(alloc, config.groups())?,
        pool: CommandPool::open(alloc, lists)?,
        instances: opened_instances(alloc, config.blocks(), config.axes())?,
    })
}
