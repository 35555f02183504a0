// The order within a cycle of a group.

ghost use Rattle.std.specs.Prelude.{◌≡◌, ◌<◌, ◌≤◌, [], length, slice_set, IfSome, Option, is_some, not, ◌&&◌};
ghost use Rattle.command_pool.specs.Waiting.{queue_of};
ghost use Rattle.group_core.specs.Cores.{core_in};
ghost use Rattle.group_core.specs.Cycles as spec;
ghost use Rattle.group_core.specs.GroupKept.{IsCoreKept, IsLook};
ghost use Rattle.group_core.specs.Refusals.{limits_in};
ghost use Rattle.group_core.specs.Seen.{core_at, on_path};
ghost use Rattle.group_core.specs.Stepping.{MayStep};
ghost use Rattle.group_core.specs.Tracks.{OnPath, places_at};
ghost use Rattle.group_core.specs.blocks.Halts as halts;
ghost use Rattle.axis_state.specs.GroupDiagram.{IsFrom};

use crate::blocks::halts::is_released;
use crate::calls::is_moving;
use crate::group::{Group, GroupOnPath, Track};
use crate::look::{GroupLook, GroupStep};
use crate::moving::step_along;
use crate::states::{is_error_stop, is_stopping, may_fail};
use crate::taking_over::{end_by, fail};
use axis_state::{GroupEvent, group_next};
use buffer_modes::ends_tell_their_owners;
use command_pool::{CommandPool, Finish, Notes};
use kin_core::{braking_steps_are_only_cut, standing_is_kept, taken_steps_keep};
use linear_path::LinePath;

// An error of a member stops the group, where it may have one.
fn answer(error: u16, group: &mut Group, pool: &mut CommandPool, list: u8, notes: &mut Notes)
    requires list { list < length pool.old }
    requires room { length notes.old ≤ 3 }
    ensures after { (p : Option OnPath) → core_in group.new p pool.new list notes.new
        ≡ spec.answered error (core_in group.old p pool.old list notes.old) }
    ensures others { pool.new ≡ slice_set pool.old list (queue_of pool.new list) }
{
    if error != 0 && may_fail(group.state) {
        fail(error, group, pool, list, notes);
    }
}

// The step of a cycle along the path, if there is one: the axes take their places, and it is
// answered how the active command ends by it.
fn advance(on: &mut GroupOnPath<LinePath>, setpoints: &mut [i64; 6]) -> Option<Finish>
    requires { MayStep on.old.group (on_path on.old.track) }
    ensures group { on.new.group ≡ on.old.group }
    ensures path { on_path on.new.track ≡ spec.path_after on.old.group (on_path on.old.track) }
    ensures ending { result ≡ spec.ending_of on.old.group (on_path on.old.track) }
    ensures places { setpoints.new
        ≡ places_at (spec.path_after on.old.group (on_path on.old.track)) setpoints.old }
{
    match &mut on.track {
        None => None,
        Some(track) => step_along(&on.group, track, setpoints),
    }
}

// A group whose GroupStop is done leaves GroupStopping at rest where nobody holds it.
fn leave_stopping(held: bool, on: &mut GroupOnPath<LinePath>)
    ensures group { on.new.group ≡ spec.group_released held on.old.group (on_path on.old.track) }
    ensures path { on_path on.new.track
        ≡ spec.path_released held on.old.group (on_path on.old.track) }
{
    let done = is_stopping(on.group.state) && on.group.active.is_none();
    if done && !is_moving(&on.track) && is_released(on.group.hold, held) {
        on.group.state = group_next(on.group.state, GroupEvent::StopReleased);
        on.group.hold = None;
        on.track = None;
    }
}

// In GroupErrorStop a path at rest is over.
fn leave_path(on: &mut GroupOnPath<LinePath>)
    ensures group { on.new.group ≡ on.old.group }
    ensures path { on_path on.new.track ≡ spec.path_over on.old.group (on_path on.old.track) }
{
    if is_error_stop(on.group.state) && !is_moving(&on.track) {
        on.track = None;
    }
}

// A cycle of the group, and where its axes stand on the path.
fn run(
    members: &GroupLook,
    on: &mut GroupOnPath<LinePath>,
    pool: &mut CommandPool,
    list: u8,
    notes: &mut Notes,
) -> [i64; 6]
    requires list { list < length pool.old }
    requires room { notes.old ≡ [] }
    requires look { IsLook on.old.group members.now }
    requires kept { IsCoreKept (limits_in members.now) (core_at on.old pool.old list notes.old) }
    ensures places { result
        ≡ places_at (spec.path_taken members.now
        (core_at on.old pool.old list notes.old)) members.now.setpoints }
    ensures after { core_at on.new pool.new list notes.new
        ≡ spec.cycled members.now (core_at on.old pool.old list notes.old) }
    ensures others { pool.new ≡ slice_set pool.old list (queue_of pool.new list) }
    ensures kept { IsCoreKept (limits_in members.now) (core_at on.new pool.new list notes.new) }
{
    // laws
    ends_tell_their_owners();
    standing_is_kept();
    taken_steps_keep();
    braking_steps_are_only_cut();
    // At most eight wait, so that the notes have room for all.
    let _ = pool.waiting(list);
    answer(members.error, &mut on.group, pool, list, notes);
    let mut places = members.setpoints;
    let ending = advance(on, &mut places);
    end_by(ending, &places, members, on, pool, list, notes);
    leave_stopping(members.stop_held, on);
    leave_path(on);
    places
}

// Whether the group is on a path.
fn is_on_path(track: &Option<Track<LinePath>>) -> bool
    ensures { result ≡ is_some (on_path track.now) }
{
    track.is_some()
}

// Whether a path that there was is over.
fn is_over(was_on_path: bool, track: &Option<Track<LinePath>>) -> bool
    ensures { result ≡ (was_on_path && not (is_some (on_path track.now))) }
{
    was_on_path && track.is_none()
}

/// A cycle of the group, and what it asks of the axes.
#[tactic(auto, unfolding(crate::specs::Cycles::step_of))]
pub fn cycle_and_show(
    members: &GroupLook,
    on: &mut GroupOnPath<LinePath>,
    pool: &mut CommandPool,
    list: u8,
    notes: &mut Notes,
) -> GroupStep
    requires list { list < length pool.old }
    requires room { notes.old ≡ [] }
    requires look { IsLook on.old.group members.now }
    requires kept { IsCoreKept (limits_in members.now) (core_at on.old pool.old list notes.old) }
    ensures step { result ≡ spec.step_of members.now (core_at on.old pool.old list notes.old) }
    ensures after { core_at on.new pool.new list notes.new
        ≡ spec.cycled members.now (core_at on.old pool.old list notes.old) }
    ensures others { pool.new ≡ slice_set pool.old list (queue_of pool.new list) }
    ensures kept { IsCoreKept (limits_in members.now) (core_at on.new pool.new list notes.new) }
{
    let was_on_path = is_on_path(&on.track);
    let places = run(members, on, pool, list, notes);
    GroupStep {
        places,
        ends: is_over(was_on_path, &on.track),
    }
}
