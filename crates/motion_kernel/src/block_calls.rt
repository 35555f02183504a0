// A block call: what it makes of the machine, and its reply.

ghost use Rattle.std.specs.Prelude.{◌≡◌, ◌<◌, if◌then◌else◌, IfSome, Some, length, map, slice_get};
ghost use Rattle.plc_types.specs.Kinds.{acts_on_group};
ghost use Rattle.fb_outputs.specs.Steps as step;
ghost use Rattle.motion_history.specs.declared.config.BlockDef.{BlockDef};
ghost use Rattle.motion_kernel.specs.calls.Calls as spec;
ghost use Rattle.motion_kernel.specs.Machine.{instance_at};
ghost use Rattle.motion_kernel.specs.kept.Machine.{IsSized};
ghost use Rattle.motion_kernel.specs.kept.Ready.{MayCall, MayRise};
ghost use Rattle.motion_kernel.specs.owners.Blocks.{OwnersHaveBlocks};
ghost use Rattle.motion_kernel.specs.Seen.{machine_of};

use crate::axis_calls::{call_axis, call_power};
use crate::detaching::detach;
use crate::group_calls::call_group;
use crate::layout::Layout;
use crate::parts::Parts;
use fb_outputs::Edge;
use motion_history::BlockDef;
use plc_types::{BlockKind, Inputs, Outputs};

/// A call of a block.
#[derive(Clone, Copy)]
struct Call<'a> {
    instance: u16,
    block: &'a BlockDef,
    inputs: &'a Inputs,
}

// A rising edge takes the earlier command's owner away, and asks a command of the block's axis or
// group.
fn rise(instance: u16, block: &BlockDef, inputs: &Inputs, layout: &Layout, parts: &mut Parts)
    requires sized { IsSized layout.now (machine_of parts.old) }
    requires object { block.now.object < (if acts_on_group block.now.kind then length
        layout.now.groups else length layout.now.axes) }
    requires may { MayRise layout.now instance block.now inputs.now (machine_of parts.old) }
    requires block { slice_get layout.now.blocks instance ≡ Some block.now }
    requires owners { OwnersHaveBlocks layout.now (machine_of parts.old) }
    ensures { machine_of parts.new ≡ spec.after_rising layout.now instance block.now inputs.now
        (machine_of parts.old) }
{
    detach(instance, block, layout, parts);
    if block.kind.acts_on_group() {
        call_group(instance, block, inputs, layout, parts);
    } else {
        call_axis(instance, block, inputs, layout, parts);
    }
}

// What a call asks for: a Power at every call, others at a rising edge.
fn ask(edge: Edge, call: &Call, layout: &Layout, parts: &mut Parts)
    requires sized { IsSized layout.now (machine_of parts.old) }
    requires may { MayCall layout.now call.now.instance call.now.block.now call.now.inputs.now
        (machine_of parts.old) }
    requires block { slice_get layout.now.blocks call.now.instance ≡ Some call.now.block.now }
    requires owners { OwnersHaveBlocks layout.now (machine_of parts.old) }
    ensures { machine_of parts.new ≡ spec.after_asking layout.now call.now.block.now.kind edge
        call.now.instance call.now.block.now call.now.inputs.now (machine_of parts.old) }
{
    match (call.block.kind, edge) {
        (BlockKind::Power, _) => call_power(call.block.object, call.inputs.execute, layout, parts),
        (_, Edge::Rising) => rise(call.instance, call.block, call.inputs, layout, parts),
        (_, Edge::High | Edge::Falling | Edge::Low) => {}
    }
}

// A call before its reply: its instance takes Execute, then it asks.
fn make(call: &Call, layout: &Layout, parts: &mut Parts)
    requires sized { IsSized layout.now (machine_of parts.old) }
    requires may { MayCall layout.now call.now.instance call.now.block.now call.now.inputs.now
        (spec.with_execute call.now.instance call.now.inputs.now (machine_of parts.old)) }
    requires block { slice_get layout.now.blocks call.now.instance ≡ Some call.now.block.now }
    requires owners { OwnersHaveBlocks layout.now (machine_of parts.old) }
    ensures { machine_of parts.new ≡ spec.called_block layout.now call.now.instance
        call.now.block.now call.now.inputs.now (machine_of parts.old) }
{
    let instance = &mut parts.instances[call.instance as usize];
    let edge = instance.on_call(call.inputs.execute);
    ask(edge, call, layout, parts);
}

// The reply of an instance.
fn reply(instance: u16, parts: &mut Parts) -> Outputs
    requires { instance < length (machine_of parts.old).instances }
    ensures reply { result ≡ step.outputs_of (instance_at (machine_of parts.old).instances
        instance) }
    ensures after { machine_of parts.new ≡ spec.after_reply instance (machine_of parts.old) }
{
    let instance = &mut parts.instances[instance as usize];
    instance.show()
}

/// A block call and its reply.
pub fn call_block(instance: u16, inputs: &Inputs, layout: &Layout, parts: &mut Parts) -> Outputs
    requires sized { IsSized layout.now (machine_of parts.old) }
    requires there { instance < length layout.now.blocks }
    requires owners { OwnersHaveBlocks layout.now (machine_of parts.old) }
    requires may { (b : BlockDef) → slice_get layout.now.blocks instance ≡ Some b →
        MayCall layout.now instance b inputs.now
        (spec.with_execute instance inputs.now (machine_of parts.old)) }
    requires still { IsSized layout.now (spec.called layout.now instance inputs.now
        (machine_of parts.old)) }
    ensures reply { result ≡ spec.reply_of layout.now (machine_of parts.old) instance inputs.now }
    ensures after { machine_of parts.new ≡ spec.after_call layout.now
        (machine_of parts.old) instance inputs.now }
{
    let call = Call {
        instance,
        block: &layout.config().blocks()[instance as usize],
        inputs,
    };
    make(&call, layout, parts);
    reply(instance, parts)
}
