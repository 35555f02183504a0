// How commands become active, end, and take over.

ghost use Rattle.std.specs.Prelude.{◌≡◌, ◌<◌, ◌≤◌, ◌++◌, [], None, Some, length, slice_set, IfSome, List, Option};
ghost use Rattle.buffer_modes.specs.Queue.{active_note, commands, end_notes};
ghost use Rattle.command_pool.specs.Waiting.{queue_of};
ghost use Rattle.command_pool.specs.declared.notes.Note.{Note};
ghost use Rattle.group_core.specs.Cores as spec;
ghost use Rattle.group_core.specs.Cores.{core_in, failed};
ghost use Rattle.group_core.specs.Kinds as kinds;
ghost use Rattle.group_core.specs.Lines.{MayBeginLine, MayTakeOver};
ghost use Rattle.group_core.specs.Refusals as refusals;
ghost use Rattle.group_core.specs.Seen.{core_at, on_path};
ghost use Rattle.group_core.specs.Tracks.{OnPath, beginning};
ghost use Rattle.group_core.specs.blocks.Line.{way_to};
ghost use Rattle.axis_state.specs.GroupDiagram.{IsFrom};
ghost use Rattle.axis_state.specs.declared.group_diagram.GroupEvent.TheVariants as event;

use crate::blocks::halts::hold_by;
use crate::group::{Group, GroupOnPath, Motion, Track};
use crate::kinds::event_of;
use crate::look::{GroupLook, limits_in};
use axis_state::{GroupEvent, group_next};
use buffer_modes::abort_all;
use command_pool::{CommandPool, Finish, Notes, Wanted};
use linear_path::{LinePath, path_limits};
use plc_types::GroupState;

/// The active command ends so, and those that wait are aborted.
pub fn end_all(
    group: &mut Group,
    pool: &mut CommandPool,
    list: u8,
    finish: Finish,
    notes: &mut Notes,
)
    requires list { list < length pool.old }
    requires room { length notes.old ≤ 3 }
    ensures group { group.new ≡ record group.old { active = None } }
    ensures waiting { queue_of pool.new list ≡ [] }
    ensures notes { notes.new
        ≡ notes.old ++ end_notes finish (commands group.old.active pool.old list) }
    ensures others { pool.new ≡ slice_set pool.old list (queue_of pool.new list) }
{
    abort_all(pool, list, &mut group.active, finish, notes);
}

/// A member has an error, or its Power is called with Enable false.
#[tactic(auto, unfolding(crate::specs::Cores::failed))]
pub fn fail(number: u16, group: &mut Group, pool: &mut CommandPool, list: u8, notes: &mut Notes)
    requires list { list < length pool.old }
    requires room { length notes.old ≤ 3 }
    requires state { IsFrom group.old.state event.MemberError }
    ensures after { (p : Option OnPath) → core_in group.new p pool.new list notes.new
        ≡ failed number (core_in group.old p pool.old list notes.old) }
    ensures others { pool.new ≡ slice_set pool.old list (queue_of pool.new list) }
{
    end_all(group, pool, list, Finish::Error(number), notes);
    group.state = group_next(group.state, GroupEvent::MemberError);
    group.error = number;
    group.hold = None;
}

/// A command becomes active.
pub fn begin(wanted: &Wanted, group: &mut Group)
    requires { IsFrom group.old.state (kinds.event_of wanted.now.kind) }
    ensures { group.new ≡ spec.begun wanted.now group.old }
{
    group.state = group_next(group.state, event_of(wanted.kind));
    group.active = Some(*wanted);
    group.hold = hold_by(wanted.kind, wanted.owner);
}

/// The start of a straight line, whose axes go from these setpoints to those.
pub fn beginning(members: &GroupLook, starts: &[i64; 6], targets: &[i64; 6]) -> Track<LinePath>
    requires { MayBeginLine members.now starts.now targets.now }
    ensures { on_path (Some result) ≡ Some (beginning
        (record { count = members.now.count; starts = starts.now; targets = targets.now })
        (refusals.limits_in members.now)) }
{
    let path = LinePath {
        count: members.count,
        starts: *starts,
        targets: *targets,
    };
    let limits = path_limits(&path, limits_in(members));
    Track {
        path,
        motion: Motion {
            limits,
            previous: 0,
            place: 0,
        },
    }
}

/// A line begins where the axes stand.
pub fn begin_line(
    wanted: &Wanted,
    setpoints: &[i64; 6],
    members: &GroupLook,
    on: &mut GroupOnPath<LinePath>,
)
    requires state { IsFrom on.old.group.state (kinds.event_of wanted.now.kind) }
    requires line { MayBeginLine members.now setpoints.now wanted.now.targets }
    ensures group { on.new.group ≡ spec.begun wanted.now on.old.group }
    ensures path { on_path on.new.track
        ≡ Some (beginning (way_to members.now.count setpoints.now wanted.now)
        (refusals.limits_in members.now)) }
{
    begin(wanted, &mut on.group);
    on.track = Some(beginning(members, setpoints, &wanted.targets));
}

// The group settles where no command waits.
fn settle(on: &mut GroupOnPath<LinePath>)
    ensures group { on.new.group ≡ record on.old.group { state = spec.settled on.old.group.state } }
    ensures path { on_path on.new.track
        ≡ spec.path_settled on.old.group.state (on_path on.old.track) }
{
    if matches!(on.group.state, GroupState::GroupMoving) {
        on.group.state = group_next(on.group.state, GroupEvent::LastDone);
        on.track = None;
    }
}

// The first command that waits takes over; without one the group settles.
fn take_over_next(
    setpoints: &[i64; 6],
    members: &GroupLook,
    on: &mut GroupOnPath<LinePath>,
    pool: &mut CommandPool,
    list: u8,
)
    requires list { list < length pool.old }
    requires waiting { MayTakeOver members.now setpoints.now on.old.group.state
        (queue_of pool.old list) }
    ensures after { (notes : List Note) → core_at on.new pool.new list notes
        ≡ spec.taken_over members.now setpoints.now (queue_of pool.old list)
        (core_at on.old pool.old list notes) }
    ensures others { pool.new ≡ slice_set pool.old list (queue_of pool.new list) }
{
    match pool.pop_first(list) {
        Some(wanted) => begin_line(&wanted, setpoints, members, on),
        None => settle(on),
    }
}

// The active command's end is noted.
fn note_end(group: &mut Group, finish: Finish, notes: &mut Notes)
    requires { length notes.old < 12 }
    ensures group { group.new ≡ record group.old { active = None } }
    ensures notes { notes.new ≡ notes.old ++ active_note finish group.old.active }
{
    if let Some(active) = &group.active {
        notes.add_end(active, finish);
    }
    group.active = None;
}

// The active command ends so, and the first one that waits takes over.
#[tactic(auto, unfolding(crate::specs::Cores::ended))]
fn end(
    finish: Finish,
    setpoints: &[i64; 6],
    members: &GroupLook,
    on: &mut GroupOnPath<LinePath>,
    pool: &mut CommandPool,
    list: u8,
    notes: &mut Notes,
)
    requires list { list < length pool.old }
    requires room { length notes.old < 12 }
    requires waiting { MayTakeOver members.now setpoints.now on.old.group.state
        (queue_of pool.old list) }
    ensures after { core_at on.new pool.new list notes.new
        ≡ spec.ended members.now setpoints.now finish (core_at on.old pool.old list notes.old) }
    ensures others { pool.new ≡ slice_set pool.old list (queue_of pool.new list) }
{
    note_end(&mut on.group, finish, notes);
    take_over_next(setpoints, members, on, pool, list);
}

/// The active command goes on, or ends so.
pub fn end_by(
    ending: Option<Finish>,
    setpoints: &[i64; 6],
    members: &GroupLook,
    on: &mut GroupOnPath<LinePath>,
    pool: &mut CommandPool,
    list: u8,
    notes: &mut Notes,
)
    requires list { list < length pool.old }
    requires room { length notes.old < 12 }
    requires waiting { IfSome ending
        (λ f. MayTakeOver members.now setpoints.now on.old.group.state (queue_of pool.old list)) }
    ensures after { core_at on.new pool.new list notes.new
        ≡ spec.ended_by members.now setpoints.now ending (core_at on.old pool.old list notes.old) }
    ensures others { pool.new ≡ slice_set pool.old list (queue_of pool.new list) }
{
    if let Some(finish) = ending {
        end(finish, setpoints, members, on, pool, list, notes);
    }
}
