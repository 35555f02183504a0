// One axis, as the kernel has it.

ghost use Rattle.std.specs.Prelude.{◌≡◌, ◌<◌, ◌≤◌, ◌≤ℤ◌, ◌-ℤ◌, ◌⊎◌, List, [], length, map, slice_set, option_map, None, IsTrue};
ghost use Rattle.command_pool.specs.Waiting as waiting_lists;
ghost use Rattle.command_pool.specs.Waiting.{queue_of};
ghost use Rattle.command_pool.specs.declared.wanted.Wanted.{Wanted};
ghost use Rattle.axis_core.specs.AxisKept.{IsAxisDef, IsAxisKept, IsLook, IsQueueKept};
ghost use Rattle.axis_core.specs.Calls as commands;
ghost use Rattle.axis_core.specs.Cores.{core_at};
ghost use Rattle.axis_core.specs.Cycles as cycles;
ghost use Rattle.axis_core.specs.Demands.{IsMade, asked_in};
ghost use Rattle.axis_core.specs.Drives as drives;
ghost use Rattle.axis_core.specs.Looks as looks;
ghost use Rattle.axis_core.specs.blocks.Path as path;
ghost use Rattle.axis_core.specs.Rows.{KeepsSpell};

use crate::axis::Axis;
use crate::look::{ActiveLook, AxisLook};
use command_pool::{CommandPool, Notes, Refusal, Wanted};
use kin_core::standing_is_kept;
use plc_types::{
    AxisDef, AxisRow, AxisState, DriveIn, Limits, offsets_are_small, setpoints_have_counts,
};
use std::marker::Model;

/// One axis: its PLCopen state, its setpoints and its active command; those that wait after it are
/// in a list of the pool, which each call is given with the list's number, that of the axis.
/// Contracts see it as an `Axis`.
#[derive(Drop)]
pub struct AxisCore {
    axis: Axis,
}

impl Model for AxisCore {
    ghost use Rattle.axis_core.specs.declared.axis.Axis.{Axis};

    ghost Value = { Axis };

    ghost use Rattle.axis_core.specs.AxisKept.{IsAxisKept};

    ghost view = { λ c. c.axis };

    ghost invariant = { λ c. IsAxisKept c.axis };
}

impl AxisCore {
    /// An axis at opening: in Standstill with power on where it is ready, else Disabled.
    pub fn open(def: &AxisDef) -> AxisCore
        requires { IsAxisDef def.now }
        ensures { result ≡ cycles.axis_at_opening def.now }
    {
        // laws
        standing_is_kept();
        setpoints_have_counts();
        AxisCore {
            axis: crate::opening::opened(def),
        }
    }

    /// An axis that goes on as this one is.
    pub fn resume(axis: Axis) -> AxisCore
        requires { IsAxisKept axis }
        ensures { result ≡ axis }
    {
        AxisCore { axis }
    }

    /// The whole of it, as it is between two events.
    pub fn axis(&self) -> &Axis
        ensures axis { result.now ≡ self.now }
        ensures kept { IsAxisKept self.now }
    {
        &self.axis
    }

    /// Asks a command of the axis, and answers whether it is active, or why it is refused. A Reset,
    /// a GearOut and a CamOut are never active.
    pub fn command(
        &mut self,
        pool: &mut CommandPool,
        list: u8,
        wanted: &Wanted,
        jerk: i64,
        held: bool,
        tables: u16,
        notes: &mut Notes,
    ) -> Result<bool, Refusal>
        requires list { list < length pool.old }
        requires room { notes.old ≡ [] }
        requires queue { IsQueueKept self.old (queue_of pool.old list) }
        requires made { IsMade wanted.now }
        ensures answer { result ≡ commands.answer_of
            (asked_in (core_at self.old pool.old list notes.old) list wanted.now jerk held tables)
            (core_at self.old pool.old list notes.old) }
        ensures after { core_at self.new pool.new list notes.new
            ≡ commands.core_after_command (asked_in (core_at self.old pool.old list notes.old) list
            wanted.now jerk held tables) (core_at self.old pool.old list notes.old) }
        ensures others { pool.new ≡ slice_set pool.old list (queue_of pool.new list) }
        ensures queue { IsQueueKept self.new (queue_of pool.new list) }
    {
        crate::calls::command(
            &mut self.axis,
            pool,
            list,
            wanted,
            jerk,
            held,
            tables,
            notes,
        )
    }

    /// Takes the Enable of a Power.
    pub fn power(&mut self, pool: &mut CommandPool, list: u8, enable: bool, notes: &mut Notes)
        requires list { list < length pool.old }
        requires room { notes.old ≡ [] }
        requires queue { IsQueueKept self.old (queue_of pool.old list) }
        ensures after { core_at self.new pool.new list notes.new
            ≡ commands.core_after_power enable (core_at self.old pool.old list notes.old) }
        ensures others { pool.new ≡ slice_set pool.old list (queue_of pool.new list) }
        ensures queue { IsQueueKept self.new (queue_of pool.new list) }
    {
        crate::calls::power(enable, &mut self.axis, pool, list, notes);
    }

    /// The error, 101, 102 or 105, that a drive's answer brings in a cycle, else 0.
    pub fn answer_error(&self, input: &DriveIn) -> u16
        ensures { result ≡ drives.answer_error_of self.now input.now }
    {
        // laws
        offsets_are_small();
        crate::driving::answer_error(&self.axis, input)
    }

    /// Its state.
    pub fn state(&self) -> AxisState
        ensures value { result ≡ self.now.state }
        ensures kept { IsAxisKept self.now }
    {
        self.axis.state
    }

    /// The setpoint before the current one, and the current one.
    pub fn pair(&self) -> (i64, i64)
        ensures previous { result.0 ≡ self.now.previous }
        ensures setpoint { result.1 ≡ self.now.setpoint }
        ensures kept { IsAxisKept self.now }
    {
        (self.axis.previous, self.axis.setpoint)
    }

    /// Its limits.
    pub fn limits(&self) -> &Limits
        ensures { result.now ≡ self.now.limits }
    {
        &self.axis.limits
    }

    /// The axis goes on its group's path, from Standstill to SynchronizedMotion, or leaves it.
    pub fn on_path(&mut self, on: bool)
        requires idle { self.old.active ≡ None }
        requires rest { IsTrue on ⊎ (self.old.previous ≡ self.old.setpoint) }
        ensures after { self.new ≡ path.axis_on_path on self.old }
        ensures queue { (waiting : List Wanted) → IsQueueKept self.old waiting →
            IsQueueKept self.new waiting }
    {
        crate::blocks::path::on_path(on, &mut self.axis);
    }

    /// Takes an owner away from the active command, the pending Reset and the hold on Stopping.
    pub fn detach(&mut self, owner: u16)
        ensures after { self.new ≡ commands.axis_without_owner owner self.old }
        ensures queue { (waiting : List Wanted) → IsQueueKept self.old waiting
            → IsQueueKept self.new (map (waiting_lists.detached owner) waiting) }
    {
        crate::calls::detach(owner, &mut self.axis);
    }

    /// The owner of the active command, what it follows, and whether it is at its velocity, in gear
    /// or in sync as of the last cycle.
    pub fn active(&self) -> Option<ActiveLook>
        ensures { result ≡ looks.active_look_of self.now }
    {
        match &self.axis.active {
            None => None,
            Some(wanted) => Some(ActiveLook {
                owner: wanted.owner,
                follow: wanted.follow,
                reached: self.axis.reached,
            }),
        }
    }

    /// The instance that holds Stopping.
    pub fn stop_owner(&self) -> Option<u16>
        ensures { result ≡ self.now.hold }
    {
        self.axis.hold
    }

    /// Whether the axis was driven in the last cycle, or at opening.
    pub fn driven(&self) -> bool
        ensures { result ≡ self.now.driven }
    {
        self.axis.driven
    }

    /// A cycle of the axis: its drive's answer is read, its command takes a step and may end, a
    /// pending Reset may be done, and its drive gets a controlword and a target. The row shows it
    /// after that.
    pub fn cycle(
        &mut self,
        pool: &mut CommandPool,
        list: u8,
        look: &AxisLook,
        notes: &mut Notes,
    ) -> AxisRow
        requires list { list < length pool.old }
        requires room { notes.old ≡ [] }
        requires queue { IsQueueKept self.old (queue_of pool.old list) }
        requires look { IsLook self.old look.now }
        ensures row { result ≡ cycles.row_shown look.now.input self.new }
        ensures limits { KeepsSpell self.old result self.new }
        ensures after { core_at self.new pool.new list notes.new
            ≡ cycles.core_after_cycle look.now (core_at self.old pool.old list notes.old) }
        ensures others { pool.new ≡ slice_set pool.old list (queue_of pool.new list) }
        ensures queue { IsQueueKept self.new (queue_of pool.new list) }
    {
        crate::cycles::cycle_and_show(look, &mut self.axis, pool, list, notes)
    }
}
