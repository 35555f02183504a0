// The parts of the machine that calls and cycles change.

ghost use Rattle.std.specs.Prelude.{◌≡◌, length};
ghost use Rattle.motion_kernel.specs.Seen.{machine_of};

use axis_core::AxisCore;
use command_pool::CommandPool;
use fb_outputs::Instance;
use group_core::{GroupCore, LinePath};

/// The axes and the groups with the commands that wait for them, and the instances of the blocks,
/// each in the order of their numbers.
#[derive(Drop)]
pub struct Parts {
    pub axes: Vec<AxisCore>,
    pub groups: Vec<GroupCore<LinePath>>,
    /// The lists of the axes, and after them those of the groups.
    pub pool: CommandPool,
    pub instances: Vec<Instance>,
}

impl Parts {
    /// Takes the machine of other parts, of which there are as many.
    pub fn copy_from(&mut self, others: &Parts)
        requires axes { length (machine_of self.old).axes ≡ length (machine_of others.now).axes }
        requires groups { length (machine_of self.old).groups ≡
            length (machine_of others.now).groups }
        requires queues { length (machine_of self.old).queues ≡
            length (machine_of others.now).queues }
        requires instances { length (machine_of self.old).instances ≡
            length (machine_of others.now).instances }
        ensures { machine_of self.new ≡ machine_of others.now }
    {
        copy_axes(self.axes.as_mut_slice(), others.axes.as_slice());
        copy_groups(self.groups.as_mut_slice(), others.groups.as_slice());
        self.pool.copy_from(&others.pool);
        copy_instances(self.instances.as_mut_slice(), others.instances.as_slice());
    }
}

// Each axis becomes what the other of its number is.
fn copy_axes(axes: &mut [AxisCore], others: &[AxisCore])
    requires { length axes.old ≡ length others.now }
    ensures { axes.new ≡ others.now }
{
    for (i, other) in others.iter().enumerate() {
        axes[i] = AxisCore::resume(*other.axis());
    }
}

// Each group becomes what the other of its number is.
fn copy_groups(groups: &mut [GroupCore<LinePath>], others: &[GroupCore<LinePath>])
    requires { length groups.old ≡ length others.now }
    ensures { groups.new ≡ others.now }
{
    for (i, other) in others.iter().enumerate() {
        groups[i] = GroupCore::resume(*other.group());
    }
}

// Each instance becomes what the other of its number is.
fn copy_instances(instances: &mut [Instance], others: &[Instance])
    requires { length instances.old ≡ length others.now }
    ensures { instances.new ≡ others.now }
{
    for (i, other) in others.iter().enumerate() {
        instances[i] = Instance::resume(
            other.kind(),
            other.execute(),
            other.reached(),
            other.progress(),
        );
    }
}
