// The parts of a machine, set one after another.

ghost use Rattle.std.specs.Prelude.{◌≡◌, ◌<◌, ◌≤◌, [], ℕ, IsTrue, Some, length, map, slice_get, slice_set};
ghost use Rattle.axis_core.specs.AxisKept.{IsAxisKept};
ghost use Rattle.axis_core.specs.declared.axis.Axis.{Axis};
ghost use Rattle.command_pool.specs.Waiting.{queue_of};
ghost use Rattle.motion_kernel.specs.Seen.{placed};

use axis_core::Axis;
use command_pool::CommandPool;
use fb_outputs::Instance;
use group_core::{GroupOnPath, LinePath};
use kernel_invariants::is_axis_kept;
use motion_kernel::Start;

/// Sets each axis to that of its number, as far as they satisfy the invariant, and says whether all
/// are.
pub fn set_axes(start: &mut Start, axes: &[Axis]) -> bool
    requires size { length start.old.axes ≡ length axes.now }
    requires few { length axes.now ≤ 255 }
    ensures set { IsTrue result → start.new ≡ record start.old { axes = axes.now } }
    ensures all { ((n : ℕ) (a : Axis) → slice_get axes.now n ≡ Some a → IsAxisKept a) →
        IsTrue result }
{
    for (i, axis) in axes.iter().enumerate() {
        if !is_axis_kept(axis) {
            return false;
        }
        start.set_axis(i as u8, *axis);
    }
    true
}

/// Sets each group to that of its number.
pub fn set_groups(start: &mut Start, groups: &[GroupOnPath<LinePath>])
    requires size { length start.old.groups ≡ length groups.now }
    requires few { length groups.now ≤ 255 }
    ensures { start.new ≡ record start.old { groups = map placed groups.now } }
{
    for (i, group) in groups.iter().enumerate() {
        start.set_group(i as u8, *group);
    }
}

/// Sets each instance to that of its block.
pub fn set_instances(start: &mut Start, instances: &[Instance])
    requires size { length start.old.instances ≡ length instances.now }
    requires few { length instances.now ≤ 65535 }
    ensures { start.new ≡ record start.old { instances = instances.now } }
{
    for (i, instance) in instances.iter().enumerate() {
        let same = Instance::resume(
            instance.kind(),
            instance.execute(),
            instance.reached(),
            instance.progress(),
        );
        start.set_instance(i as u16, same);
    }
}

/// Puts the commands that wait into their lists, in which none waits yet.
pub fn set_waiting(start: &mut Start, waiting: &CommandPool)
    requires size { length start.old.queues ≡ length waiting.now }
    requires empty { (n : ℕ) → queue_of start.old.queues n ≡ [] }
    ensures { start.new ≡ record start.old { queues = waiting.now } }
{
    for list in 0..waiting.lists() {
        set_list(start, waiting, list);
    }
}

// Puts the commands that wait in a list into that list, in which none waits yet.
fn set_list(start: &mut Start, waiting: &CommandPool, list: u8)
    requires size { length start.old.queues ≡ length waiting.now }
    requires there { list < length waiting.now }
    requires empty { queue_of start.old.queues list ≡ [] }
    ensures { start.new ≡ record start.old {
      queues = slice_set start.old.queues list (queue_of waiting.now list);
    } }
{
    for place in 0..waiting.waiting(list) {
        if let Some(wanted) = waiting.waiting_at(list, place) {
            let _ = start.push_waiting(list, *wanted);
        }
    }
}
