// One group, as the kernel has it.

ghost use Rattle.std.specs.Prelude.{◌≡◌, ◌<◌, ◌≤◌, ◌++◌, [], length, slice_set, map, is_some, None, List, Option};
ghost use Rattle.command_pool.specs.Waiting as waiting;
ghost use Rattle.command_pool.specs.Waiting.{queue_of};
ghost use Rattle.command_pool.specs.declared.wanted.Wanted.{Wanted};
ghost use Rattle.group_core.specs.Calls as commands;
ghost use Rattle.group_core.specs.Cores.{core_in};
ghost use Rattle.group_core.specs.Cycles as cycles;
ghost use Rattle.group_core.specs.GroupKept.{AreGroupLimits, IsCoreKept, IsCount, IsGroupKept, IsLook, IsMade};
ghost use Rattle.group_core.specs.Looks as looks;
ghost use Rattle.group_core.specs.Refusals.{limits_in};
ghost use Rattle.group_core.specs.Tracks.{OnPath};
ghost use Rattle.group_core.specs.blocks.Reset.{reset_notes};
ghost use Rattle.plc_types.specs.declared.limits.Limits.{Limits};

use crate::group::{Group, GroupOnPath};
use crate::look::{ActiveLook, GroupLook, GroupStep};
use command_pool::{CommandPool, Notes, Refusal, Wanted};
use linear_path::{LinePath, Path};
use plc_types::{GroupRow, GroupState};
use std::marker::Model;

/// One group: its PLCopen state, its path and its active command; those that wait after it are in
/// a list of the pool, which each call is given with the list's number. Contracts see it as a
/// `GroupOnPath`.
#[derive(Drop)]
pub struct GroupCore<P: Path> {
    on: GroupOnPath<P>,
}

impl<P: Path> Model for GroupCore<P> {
    ghost use Rattle.group_core.specs.declared.group.GroupOnPath.{GroupOnPath};

    ghost Value = { GroupOnPath P };

    ghost view = { λ c. c.on };
}

impl<P: Path + Drop> GroupCore<P> {
    /// A group that goes on as this one is.
    pub fn resume(on: GroupOnPath<P>) -> GroupCore<P>
        ensures { result ≡ on }
    {
        GroupCore { on }
    }

    /// The whole of it, as it is between two events.
    pub fn group(&self) -> &GroupOnPath<P>
        ensures { result.now ≡ self.now }
    {
        &self.on
    }

    /// Its state.
    pub fn state(&self) -> GroupState
        ensures { result ≡ self.now.group.state }
    {
        self.on.group.state
    }

    /// Takes a Power with Enable false on a member.
    pub fn power_off(&mut self, pool: &mut CommandPool, list: u8, notes: &mut Notes)
        requires list { list < length pool.old }
        requires room { notes.old ≡ [] }
        ensures after { (p : Option OnPath) → core_in self.new.group p pool.new list notes.new
            ≡ commands.powered_off (core_in self.old.group p pool.old list notes.old) }
        ensures path { self.new.track ≡ self.old.track }
        ensures others { pool.new ≡ slice_set pool.old list (queue_of pool.new list) }
        ensures kept { (limits : List Limits) (p : Option OnPath) →
            IsGroupKept limits self.old.group p (queue_of pool.old list)
            → IsGroupKept limits self.new.group p (queue_of pool.new list) }
    {
        crate::calls::power_off(&mut self.on.group, pool, list, notes);
    }

    /// Makes a pending GroupReset after the cycles of the members, with their states as they then
    /// are, and answers the cycle's row.
    pub fn reset_cycle(&mut self, members: &GroupLook, notes: &mut Notes) -> GroupRow
        requires count { members.now.count ≤ 6 }
        requires room { notes.old ≡ [] }
        ensures row { result ≡ cycles.row_of self.new.group }
        ensures group { self.new.group
            ≡ cycles.reset_where members.now (is_some self.old.track) self.old.group }
        ensures path { self.new.track ≡ self.old.track }
        ensures notes { notes.new
            ≡ reset_notes self.old.group.reset (is_some self.old.track) self.old.group }
        ensures kept { (limits : List Limits) (p : Option OnPath) (ws : List Wanted) →
            is_some p ≡ is_some self.old.track
            → IsGroupKept limits self.old.group p ws → IsGroupKept limits self.new.group p ws }
    {
        let on_path = self.on.track.is_some();
        crate::blocks::reset::reset(members, on_path, &mut self.on.group, notes);
        GroupRow {
            state: self.on.group.state,
            error: self.on.group.error,
        }
    }

    /// Takes an owner away from the active command, the pending GroupReset and the hold on
    /// GroupStopping.
    pub fn detach(&mut self, owner: u16)
        ensures after { self.new
            ≡ record self.old { group = commands.group_without owner self.old.group } }
        ensures kept { (limits : List Limits) (p : Option OnPath) (ws : List Wanted) →
            IsGroupKept limits self.old.group p ws
            → IsGroupKept limits self.new.group p (map (waiting.detached owner) ws) }
    {
        crate::owners::detach(owner, &mut self.on.group);
    }

    /// The owner of the active command; it follows nothing.
    pub fn active(&self) -> Option<ActiveLook>
        ensures { result ≡ looks.active_look_of self.now.group.active }
    {
        match &self.on.group.active {
            None => None,
            Some(wanted) => Some(ActiveLook {
                owner: wanted.owner,
                follow: wanted.follow,
                reached: false,
            }),
        }
    }

    /// The instance that holds GroupStopping.
    pub fn stop_owner(&self) -> Option<u16>
        ensures { result ≡ self.now.group.hold }
    {
        self.on.group.hold
    }
}

impl GroupCore<LinePath> {
    ghost use Rattle.group_core.specs.Seen.{core_at};

    /// A group of this many axes at opening: it is in GroupDisabled.
    pub fn open(axes: u8) -> GroupCore<LinePath>
        requires { IsCount axes }
        ensures group { result.group ≡ cycles.opened axes }
        ensures path { result.track ≡ None }
        ensures kept { (limits : List Limits) → AreGroupLimits axes limits →
            IsGroupKept limits result.group None [] }
    {
        GroupCore {
            on: GroupOnPath {
                group: Group {
                    axes,
                    state: GroupState::GroupDisabled,
                    error: 0,
                    active: None,
                    reset: None,
                    hold: None,
                },
                track: None,
            },
        }
    }

    /// Asks a command of the group, and answers whether it is active, or why it is refused. A
    /// GroupEnable, a GroupDisable and a GroupReset are never active.
    pub fn command(
        &mut self,
        pool: &mut CommandPool,
        list: u8,
        wanted: &Wanted,
        jerk: i64,
        members: &GroupLook,
        notes: &mut Notes,
    ) -> Result<bool, Refusal>
        requires list { list < length pool.old }
        requires room { notes.old ≡ [] }
        requires look { IsLook self.old.group members.now }
        requires kept { IsCoreKept (limits_in members.now)
            (core_at self.old pool.old list notes.old) }
        requires made { IsMade self.old.group.axes wanted.now }
        ensures answer { result
            ≡ commands.answer_of wanted.now jerk members.now
            (core_at self.old pool.old list notes.old) }
        ensures after { core_at self.new pool.new list notes.new
            ≡ commands.commanded wanted.now jerk members.now
            (core_at self.old pool.old list notes.old) }
        ensures others { pool.new ≡ slice_set pool.old list (queue_of pool.new list) }
        ensures kept { IsCoreKept (limits_in members.now)
            (core_at self.new pool.new list notes.new) }
    {
        crate::calls::command(wanted, jerk, members, &mut self.on, pool, list, notes)
    }

    /// A cycle of the group: an error of a member stops it, its path takes a step, its command may
    /// end and the next one take over. The members then take the places that are answered.
    pub fn cycle(
        &mut self,
        pool: &mut CommandPool,
        list: u8,
        members: &GroupLook,
        notes: &mut Notes,
    ) -> GroupStep
        requires list { list < length pool.old }
        requires room { notes.old ≡ [] }
        requires look { IsLook self.old.group members.now }
        requires kept { IsCoreKept (limits_in members.now)
            (core_at self.old pool.old list notes.old) }
        ensures step { result
            ≡ cycles.step_of members.now (core_at self.old pool.old list notes.old) }
        ensures after { core_at self.new pool.new list notes.new
            ≡ cycles.cycled members.now (core_at self.old pool.old list notes.old) }
        ensures others { pool.new ≡ slice_set pool.old list (queue_of pool.new list) }
        ensures kept { IsCoreKept (limits_in members.now)
            (core_at self.new pool.new list notes.new) }
    {
        crate::cycles::cycle_and_show(members, &mut self.on, pool, list, notes)
    }
}
