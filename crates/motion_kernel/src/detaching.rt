// An instance's earlier command is taken away from it.

ghost use Rattle.std.specs.Prelude.{◌≡◌, ◌<◌, length, if◌then◌else◌, IfSome, Some, map, slice_get};
ghost use Rattle.axis_core.specs.Owners.{core_without_owner};
ghost use Rattle.plc_types.specs.Kinds.{acts_on_group};
ghost use Rattle.group_core.specs.Calls.{disowned};
ghost use Rattle.motion_kernel.specs.calls.Calls as spec;
ghost use Rattle.motion_kernel.specs.kept.Machine.{IsSized};
ghost use Rattle.motion_kernel.specs.Machine.{axis_core_at, group_core_at};
ghost use Rattle.motion_kernel.specs.owners.Blocks.{OwnersHaveBlocks};
ghost use Rattle.motion_kernel.specs.Seen.{machine_of};

use crate::group_calls::list_of;
use crate::layout::Layout;
use crate::parts::Parts;
use motion_history::BlockDef;

// Takes an owner away from the commands of an axis.
fn detach_axis(owner: u16, axis: u8, parts: &mut Parts)
    requires there { axis < length parts.old.axes.items }
    requires list { axis < length parts.old.pool }
    ensures { machine_of parts.new ≡ spec.with_axis_core (machine_of parts.old) axis
        (core_without_owner owner (axis_core_at (machine_of parts.old) axis)) }
{
    parts.axes[axis as usize].detach(owner);
    parts.pool.detach(axis, owner);
}

// Takes an owner away from the commands of a group.
fn detach_group(owner: u16, group: u8, layout: &Layout, parts: &mut Parts)
    requires sized { IsSized layout.now (machine_of parts.old) }
    requires there { group < length layout.now.groups }
    ensures { machine_of parts.new ≡ spec.with_group_core (machine_of parts.old) group
        (disowned owner (group_core_at (machine_of parts.old) group)) }
{
    let list = list_of(group, parts);
    parts.groups[group as usize].detach(owner);
    parts.pool.detach(list, owner);
}

/// Takes an instance's earlier command away from it, which is where its block acts, if anywhere.
pub fn detach(instance: u16, block: &BlockDef, layout: &Layout, parts: &mut Parts)
    requires sized { IsSized layout.now (machine_of parts.old) }
    requires block { slice_get layout.now.blocks instance ≡ Some block.now }
    requires object { block.now.object < (if acts_on_group block.now.kind then length
        layout.now.groups else length layout.now.axes) }
    requires owners { OwnersHaveBlocks layout.now (machine_of parts.old) }
    ensures after { machine_of parts.new ≡ spec.without_owner instance (machine_of parts.old) }
    ensures sized { IsSized layout.now (machine_of parts.new) }
{
    if block.kind.acts_on_group() {
        detach_group(instance, block.object, layout, parts);
    } else {
        detach_axis(instance, block.object, parts);
    }
}
