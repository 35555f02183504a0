// What the instances show after a cycle.

ghost use Rattle.std.specs.Prelude.{◌≡◌, ◌<◌, length, map, Some, if◌then◌else◌};
ghost use Rattle.plc_types.specs.Kinds.{acts_on_group};
ghost use Rattle.motion_kernel.specs.cycles.Showing as spec;
ghost use Rattle.motion_kernel.specs.kept.Machine.{IsSized};
ghost use Rattle.motion_kernel.specs.Seen.{machine_of, placed};
ghost use Rattle.motion_kernel.specs.calls.Telling as telling;

use crate::layout::Layout;
use crate::parts::Parts;
use crate::telling::show_active;
use axis_core::AxisCore;
use fb_outputs::Instance;
use group_core::{GroupCore, GroupState, LinePath};
use motion_history::{BlockDef, configurations_are_sound};
use plc_types::{AxisState, BlockKind};

// Shows the owner of an axis's active command what that has reached.
fn show_axis(axis: &AxisCore, instances: &mut [Instance])
    ensures told { instances.new ≡ spec.axis_shown axis.now instances.old }
    ensures long { length instances.new ≡ length instances.old }
{
    let axis = axis.axis();
    if let Some(wanted) = &axis.active {
        show_active(wanted.owner, axis.reached, instances);
    }
}

// The same of all axes.
fn show_axes(axes: &[AxisCore], instances: &mut [Instance])
    ensures told { instances.new ≡ spec.axes_shown (length axes.now) axes.now instances.old }
    ensures long { length instances.new ≡ length instances.old }
{
    for axis in axes {
        show_axis(axis, instances);
    }
}

// Shows the owner of a group's active command that it is active.
fn show_group(group: &GroupCore<LinePath>, instances: &mut [Instance])
    ensures told { instances.new ≡ spec.group_shown (placed group.now) instances.old }
    ensures long { length instances.new ≡ length instances.old }
{
    if let Some(active) = group.active() {
        show_active(active.owner, active.reached, instances);
    }
}

// The same of all groups.
fn show_groups(groups: &[GroupCore<LinePath>], instances: &mut [Instance])
    ensures told { instances.new ≡ spec.groups_shown (length groups.now)
        (map placed groups.now) instances.old }
    ensures long { length instances.new ≡ length instances.old }
{
    for group in groups {
        show_group(group, instances);
    }
}

// Whether an instance is the one that holds an axis or a group in stopping.
fn is_holder(instance: u16, hold: Option<u16>) -> bool
    ensures { result ≡ telling.is_holder instance hold }
{
    match hold {
        Some(owner) => owner == instance,
        None => false,
    }
}

// What a Stop finds of its axis: whether it holds it in Stopping.
fn holds_axis(instance: u16, axis: &AxisCore) -> bool
    ensures { result ≡ spec.holds_axis instance axis.now }
{
    matches!(axis.state(), AxisState::Stopping) && is_holder(instance, axis.stop_owner())
}

// What a GroupStop finds of its group: whether it holds it in GroupStopping.
fn holds_group(instance: u16, group: &GroupCore<LinePath>) -> bool
    ensures { result ≡ spec.holds_group instance group.now.group }
{
    matches!(group.state(), GroupState::GroupStopping) && is_holder(instance, group.stop_owner())
}

// What an instance finds at a cycle's end besides, if it is of a kind that does.
fn found_by(instance: u16, block: &BlockDef, parts: &Parts) -> Option<bool>
    requires { block.now.object < (if acts_on_group block.now.kind then length
        parts.now.groups.items else length parts.now.axes.items) }
    ensures { result ≡ spec.found_by block.now.kind (machine_of parts.now).axes
        (machine_of parts.now).groups instance block.now.object }
{
    let object = block.object as usize;
    match block.kind {
        BlockKind::Power => Some(parts.axes[object].driven()),
        BlockKind::Stop => Some(holds_axis(instance, &parts.axes[object])),
        BlockKind::GroupStop => Some(holds_group(instance, &parts.groups[object])),
        _ => None,
    }
}

// An instance is given what it found.
fn tell_found(instance: u16, block: &BlockDef, parts: &mut Parts)
    requires object { block.now.object < (if acts_on_group block.now.kind then length
        parts.old.groups.items else length parts.old.axes.items) }
    requires there { instance < length parts.old.instances.items }
    ensures { machine_of parts.new ≡ record (machine_of parts.old) {
      instances = spec.instance_found (Some block.now) (machine_of parts.old).axes
          (machine_of parts.old).groups instance (machine_of parts.old).instances;
    } }
{
    if let Some(found) = found_by(instance, block, parts) {
        parts.instances[instance as usize].set_reached(found);
    }
}

// All that find something are.
fn tell_all_found(layout: &Layout, parts: &mut Parts)
    requires { IsSized layout.now (machine_of parts.old) }
    ensures { machine_of parts.new ≡ record (machine_of parts.old) {
      instances = spec.instances_found (length layout.now.blocks) layout.now.blocks
          (machine_of parts.old).axes (machine_of parts.old).groups
          (machine_of parts.old).instances;
    } }
{
    // laws
    configurations_are_sound();
    for instance in layout.polled() {
        tell_found(
            *instance,
            &layout.config().blocks()[*instance as usize],
            parts,
        );
    }
}

// The owners of the active commands are given what these have reached.
fn show_owners(parts: &mut Parts)
    ensures shown { machine_of parts.new ≡ record (machine_of parts.old) {
      instances = spec.groups_shown (length (machine_of parts.old).groups)
          (machine_of parts.old).groups
          (spec.axes_shown (length (machine_of parts.old).axes) (machine_of parts.old).axes
          (machine_of parts.old).instances);
    } }
    ensures long { length parts.new.instances.items ≡ length parts.old.instances.items }
{
    show_axes(parts.axes.as_slice(), parts.instances.as_mut_slice());
    show_groups(parts.groups.as_slice(), parts.instances.as_mut_slice());
}

/// The instances are given what the cycle found.
#[tactic(auto, unfolding(crate::specs::cycles::Showing::with_found))]
pub fn show_cycle(layout: &Layout, parts: &mut Parts)
    requires { IsSized layout.now (machine_of parts.old) }
    ensures { machine_of parts.new ≡ spec.with_found layout.now (machine_of parts.old) }
{
    show_owners(parts);
    tell_all_found(layout, parts);
}
