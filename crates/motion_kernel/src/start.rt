// The machine with which a segment of a history begins.

ghost use Rattle.std.specs.Prelude.{◌≡◌, ◌↔◌, ◌<◌, ◌≤◌, ◌++◌, ◌∷◌, [], IfErr, IfOk, IsErr, OnErr, OnOk, length, slice_get, slice_set};
ghost use Rattle.std.specs.Option.{option_copied, option_map};
ghost use Rattle.axis_core.specs.AxisKept.{IsAxisKept};
ghost use Rattle.command_pool.specs.Waiting.{queue_of};
ghost use Rattle.motion_kernel.specs.Machine.{machine_at_opening};
ghost use Rattle.motion_kernel.specs.Seen.{machine_of, placed};

use crate::layout::Layout;
use crate::opening::open_parts;
use crate::parts::Parts;
use axis_core::{Axis, AxisCore};
use command_pool::Wanted;
use fb_outputs::Instance;
use group_core::{GroupCore, GroupOnPath, LinePath};
use motion_history::OutOfMemory;
use std::alloc::Global;
use std::marker::Model;

/// A machine as it is between two entries, in room of its own. Contracts see it as a `Machine`.
#[derive(Drop)]
pub struct Start {
    parts: Parts,
}

impl Model for Start {
    ghost use Rattle.motion_kernel.specs.Machine.{Machine};
    ghost use Rattle.motion_kernel.specs.Seen.{machine_of};

    ghost Value = { Machine };

    ghost view = { λ s. machine_of s.parts };
}

impl Start {
    /// The machine at opening.
    pub(crate) fn open(alloc: Global, layout: &Layout) -> Result<Start, OutOfMemory>
        ensures { IfOk result (λ s. s ≡ machine_at_opening layout.now) }
    {
        let parts = open_parts(alloc, layout)?;
        Ok(Start { parts })
    }

    /// An axis, by its number.
    pub fn axis(&self, axis: u8) -> Option<&Axis>
        ensures { option_copied result ≡ slice_get self.now.axes axis }
    {
        Some(self.parts.axes.get(axis as usize)?.axis())
    }

    /// A group with its path, by its number.
    pub fn group(&self, group: u8) -> Option<&GroupOnPath<LinePath>>
        ensures { option_map (λ g. placed g.now) result ≡ slice_get self.now.groups group }
    {
        Some(self.parts.groups.get(group as usize)?.group())
    }

    /// The command that waits at a place of a list, counted from 0. After the lists of the axes
    /// stand those of the groups.
    pub fn waiting(&self, list: u8, place: u8) -> Option<&Wanted>
        requires { list < length self.now.queues }
        ensures { option_copied result ≡ slice_get (queue_of self.now.queues list) place }
    {
        self.parts.pool.waiting_at(list, place)
    }

    /// How many commands wait in a list.
    pub fn waiting_count(&self, list: u8) -> u8
        requires { list < length self.now.queues }
        ensures count { result ≡ length (queue_of self.now.queues list) }
        ensures few { result ≤ 8 }
    {
        self.parts.pool.waiting(list)
    }

    /// The instance of a block, by its number.
    pub fn instance(&self, block: u16) -> Option<&Instance>
        ensures { option_map (λ i. i.now) result ≡ slice_get self.now.instances block }
    {
        self.parts.instances.get(block as usize)
    }

    /// Sets an axis, by its number.
    pub fn set_axis(&mut self, axis: u8, now: Axis)
        requires kept { IsAxisKept now }
        requires place { axis < length self.old.axes }
        ensures { self.new ≡ record self.old { axes = slice_set self.old.axes axis now } }
    {
        self.parts.axes[axis as usize] = AxisCore::resume(now);
    }

    /// Sets a group with its path, by its number.
    pub fn set_group(&mut self, group: u8, now: GroupOnPath<LinePath>)
        requires { group < length self.old.groups }
        ensures { self.new ≡ record self.old {
          groups = slice_set self.old.groups group (placed now);
        } }
    {
        self.parts.groups[group as usize] = GroupCore::resume(now);
    }

    /// Puts a command after the last that waits in a list. Where eight wait it is given back.
    pub fn push_waiting(&mut self, list: u8, wanted: Wanted) -> Result<(), Wanted>
        requires { list < length self.old.queues }
        ensures added { OnOk result (self.new ≡ record self.old {
          queues = slice_set self.old.queues list (queue_of self.old.queues list ++ wanted ∷ []);
        }) }
        ensures full_exactly_at_eight { IsErr result ↔
            (length (queue_of self.old.queues list) ≡ 8) }
        ensures given_back { IfErr result (λ back. back ≡ wanted) }
        ensures unchanged { OnErr result (self.new ≡ self.old) }
    {
        self.parts.pool.push_last(list, wanted)
    }

    /// Sets the instance of a block, by its number.
    pub fn set_instance(&mut self, block: u16, now: Instance)
        requires { block < length self.old.instances }
        ensures { self.new ≡ record self.old {
          instances = slice_set self.old.instances block now;
        } }
    {
        self.parts.instances[block as usize] = now;
    }

    /// Takes the machine of these parts in the place of its own, which has as many.
    pub(crate) fn copy_from(&mut self, parts: &Parts)
        requires axes { length self.old.axes ≡ length (machine_of parts.now).axes }
        requires groups { length self.old.groups ≡ length (machine_of parts.now).groups }
        requires queues { length self.old.queues ≡ length (machine_of parts.now).queues }
        requires instances { length self.old.instances ≡ length (machine_of parts.now).instances }
        ensures { self.new ≡ machine_of parts.now }
    {
        self.parts.copy_from(parts);
    }

    /// Gives its machine to these parts, of which there are as many.
    pub(crate) fn copy_to(&self, parts: &mut Parts)
        requires axes { length self.now.axes ≡ length (machine_of parts.old).axes }
        requires groups { length self.now.groups ≡ length (machine_of parts.old).groups }
        requires queues { length self.now.queues ≡ length (machine_of parts.old).queues }
        requires instances { length self.now.instances ≡ length (machine_of parts.old).instances }
        ensures { machine_of parts.new ≡ self.now }
    {
        parts.copy_from(&self.parts);
    }
}
