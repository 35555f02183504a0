// What a command on a group and a Power off of a member make of the group.

ghost use Rattle.std.specs.Prelude.{◌≡◌, ◌<◌, ◌≤◌, [], false, length, slice_set, Option};
ghost use Rattle.command_pool.specs.Waiting.{queue_of};
ghost use Rattle.group_core.specs.Admitting.{MayAdmit, MayHalt, MayJoin};
ghost use Rattle.group_core.specs.Calls as spec;
ghost use Rattle.group_core.specs.Cores.{core_in};
ghost use Rattle.group_core.specs.GroupKept.{IsCoreKept, IsLook, IsMade};
ghost use Rattle.group_core.specs.Refusals.{limits_in};
ghost use Rattle.group_core.specs.Seen.{core_at, on_path};
ghost use Rattle.group_core.specs.Tracks as tracks;
ghost use Rattle.group_core.specs.Tracks.{OnPath};

use crate::blocks::enable::{disable, enable};
use crate::blocks::line::braking_for;
use crate::blocks::reset::await_reset;
use crate::group::{Group, GroupOnPath, Track};
use crate::look::GroupLook;
use crate::refusing::{Asking, refusal_of};
use crate::states::may_fail;
use crate::taking_over::{begin, begin_line, beginning, end_all, fail};
use buffer_modes::admit;
use command_pool::{CommandPool, Finish, Notes, Refusal, Wanted};
use kin_core::standing_is_kept;
use linear_path::LinePath;
use plc_types::{BlockKind, BufferMode};

/// POWER_OFF: Power is called with Enable false on a member.
const POWER_OFF: u16 = 102;

/// Whether the path moves: its last step is not 0.
pub fn is_moving(track: &Option<Track<LinePath>>) -> bool
    ensures { result ≡ tracks.is_moving (on_path track.now) }
{
    match track {
        None => false,
        Some(track) => track.motion.place != track.motion.previous,
    }
}

// The others are ended, and the path is braked.
fn halt(
    wanted: &Wanted,
    members: &GroupLook,
    on: &mut GroupOnPath<LinePath>,
    pool: &mut CommandPool,
    list: u8,
    notes: &mut Notes,
)
    requires list { list < length pool.old }
    requires room { length notes.old ≤ 3 }
    requires may { MayHalt members.now wanted.now on.old.group }
    ensures after { core_at on.new pool.new list notes.new
        ≡ spec.halted members.now wanted.now (core_at on.old pool.old list notes.old) }
    ensures others { pool.new ≡ slice_set pool.old list (queue_of pool.new list) }
{
    end_all(&mut on.group, pool, list, Finish::Aborted, notes);
    begin(wanted, &mut on.group);
    if !is_moving(&on.track) {
        on.track = Some(beginning(members, &members.setpoints, &members.setpoints));
    }
}

// A line aborts a path that moves: it waits until that has come to rest.
fn brake_for(
    wanted: &Wanted,
    group: &mut Group,
    pool: &mut CommandPool,
    list: u8,
    notes: &mut Notes,
)
    requires list { list < length pool.old }
    requires room { length notes.old ≤ 3 }
    ensures after { (p : Option OnPath) → core_in group.new p pool.new list notes.new
        ≡ spec.braked_for wanted.now (core_in group.old p pool.old list notes.old) }
    ensures others { pool.new ≡ slice_set pool.old list (queue_of pool.new list) }
{
    let braking = braking_for(&group.active);
    end_all(group, pool, list, Finish::Aborted, notes);
    group.active = braking;
    let _ = pool.push_last(list, *wanted);
}

// Whether a line waits until the path that it aborts has come to rest.
fn waits_for_rest(wanted: &Wanted, track: &Option<Track<LinePath>>) -> bool
    ensures { result ≡ spec.waits_for_rest wanted.now (on_path track.now) }
{
    matches!(wanted.mode, BufferMode::Aborting) && is_moving(track)
}

// A line joins the others, and it is answered whether it is active.
fn join_line(
    wanted: &Wanted,
    members: &GroupLook,
    on: &mut GroupOnPath<LinePath>,
    pool: &mut CommandPool,
    list: u8,
    notes: &mut Notes,
) -> bool
    requires list { list < length pool.old }
    requires room { length notes.old ≤ 3 }
    requires may { MayJoin members.now wanted.now (core_at on.old pool.old list notes.old) }
    ensures active { result
        ≡ spec.is_line_active wanted.now (core_at on.old pool.old list notes.old) }
    ensures after { core_at on.new pool.new list notes.new
        ≡ spec.line_joined members.now wanted.now (core_at on.old pool.old list notes.old) }
    ensures others { pool.new ≡ slice_set pool.old list (queue_of pool.new list) }
{
    if waits_for_rest(wanted, &on.track) {
        brake_for(wanted, &mut on.group, pool, list, notes);
        return false;
    }
    let Ok(active) = admit(pool, list, &mut on.group.active, *wanted, notes) else {
        return false;
    };
    if active {
        begin_line(wanted, &members.setpoints, members, on);
    }
    active
}

// A command that is not refused, and whether it is active.
fn admit_command(
    wanted: &Wanted,
    members: &GroupLook,
    on: &mut GroupOnPath<LinePath>,
    pool: &mut CommandPool,
    list: u8,
    notes: &mut Notes,
) -> bool
    requires list { list < length pool.old }
    requires room { length notes.old ≤ 3 }
    requires may { MayAdmit wanted.now.kind members.now wanted.now
        (core_at on.old pool.old list notes.old) }
    ensures active { result
        ≡ spec.is_active_by wanted.now.kind wanted.now (core_at on.old pool.old list notes.old) }
    ensures after { core_at on.new pool.new list notes.new
        ≡ spec.admitted_by wanted.now.kind members.now wanted.now
        (core_at on.old pool.old list notes.old) }
    ensures others { pool.new ≡ slice_set pool.old list (queue_of pool.new list) }
{
    match wanted.kind {
        BlockKind::GroupEnable => enable(&mut on.group),
        BlockKind::GroupDisable => {
            disable(&mut on.group);
            on.track = None;
        }
        BlockKind::GroupReset => await_reset(wanted, &mut on.group, notes),
        BlockKind::GroupStop | BlockKind::GroupHalt => {
            halt(wanted, members, on, pool, list, notes);
            return true;
        }
        BlockKind::MoveLinearAbsolute => {
            return join_line(wanted, members, on, pool, list, notes);
        }
        _ => {}
    }
    false
}

/// Asks a command of the group: it is refused by the first reason of its kind that holds, else it
/// is admitted, and answered whether it is active.
#[tactic(auto, unfolding(crate::specs::Calls::commanded, crate::specs::Calls::answer_of))]
pub fn command(
    wanted: &Wanted,
    jerk: i64,
    members: &GroupLook,
    on: &mut GroupOnPath<LinePath>,
    pool: &mut CommandPool,
    list: u8,
    notes: &mut Notes,
) -> Result<bool, Refusal>
    requires list { list < length pool.old }
    requires room { notes.old ≡ [] }
    requires look { IsLook on.old.group members.now }
    requires kept { IsCoreKept (limits_in members.now) (core_at on.old pool.old list notes.old) }
    requires made { IsMade on.old.group.axes wanted.now }
    ensures answer { result
        ≡ spec.answer_of wanted.now jerk members.now (core_at on.old pool.old list notes.old) }
    ensures after { core_at on.new pool.new list notes.new
        ≡ spec.commanded wanted.now jerk members.now (core_at on.old pool.old list notes.old) }
    ensures others { pool.new ≡ slice_set pool.old list (queue_of pool.new list) }
    ensures kept { IsCoreKept (limits_in members.now) (core_at on.new pool.new list notes.new) }
{
    // laws
    standing_is_kept();
    let asking = Asking {
        group: &on.group,
        moves: is_moving(&on.track),
        waiting: pool.waiting(list),
        wanted,
        jerk,
        members,
    };
    if let Some(reason) = refusal_of(&asking) {
        return Err(Refusal {
            number: reason.number(),
        });
    }
    Ok(admit_command(wanted, members, on, pool, list, notes))
}

/// Takes a Power with Enable false on a member.
#[tactic(auto, unfolding(crate::specs::Calls::powered_off))]
pub fn power_off(group: &mut Group, pool: &mut CommandPool, list: u8, notes: &mut Notes)
    requires list { list < length pool.old }
    requires room { length notes.old ≤ 3 }
    ensures after { (p : Option OnPath) → core_in group.new p pool.new list notes.new
        ≡ spec.powered_off (core_in group.old p pool.old list notes.old) }
    ensures others { pool.new ≡ slice_set pool.old list (queue_of pool.new list) }
{
    if may_fail(group.state) {
        fail(POWER_OFF, group, pool, list, notes);
    }
}
