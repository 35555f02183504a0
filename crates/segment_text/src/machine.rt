// A machine that was read.

use axis_core::Axis;
use command_pool::CommandPool;
use fb_outputs::Instance;
use group_core::{GroupOnPath, LinePath};
use std::marker::Model;

/// A machine as a header says it, each part in the order of its numbers. Contracts see it as a
/// `Machine`.
#[derive(Drop)]
pub struct MachineText {
    pub axes: Vec<Axis>,
    pub groups: Vec<GroupOnPath<LinePath>>,
    /// The commands that wait: the lists of the axes, and after them those of the groups.
    pub waiting: CommandPool,
    pub instances: Vec<Instance>,
}

impl Model for MachineText {
    ghost use Rattle.std.specs.Prelude.{map};
    ghost use Rattle.motion_kernel.specs.Machine.{Machine};
    ghost use Rattle.motion_kernel.specs.Seen.{placed};

    ghost Value = { Machine };

    ghost view = { λ m. record {
      axes = m.axes.items;
      groups = map placed m.groups.items;
      queues = m.waiting;
      instances = m.instances.items;
    } };
}
