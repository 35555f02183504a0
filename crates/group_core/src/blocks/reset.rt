// MC_GroupReset: it is pending until a cycle in which it may be done (PLCopen Motion Control Part
// 4).

ghost use Rattle.std.specs.Prelude.{◌≡◌, ◌<◌, ◌≤◌, ◌++◌, length};
ghost use Rattle.buffer_modes.specs.Resets.{replaced_note};
ghost use Rattle.group_core.specs.Cycles.{reset_where};
ghost use Rattle.group_core.specs.Refusals as refusals;
ghost use Rattle.group_core.specs.blocks.Reset as spec;

use crate::group::Group;
use crate::look::{GroupLook, states_in};
use crate::states::{any_moved, is_error_stop};
use axis_state::{GroupEvent, group_next};
use buffer_modes::{PendingReset, tell_reset};
use command_pool::{Finish, Notes, Wanted};
use plc_types::GroupState;

/// A GroupReset is pending; one that it replaces is aborted.
pub fn await_reset(wanted: &Wanted, group: &mut Group, notes: &mut Notes)
    requires { length notes.old < 12 }
    ensures group { group.new ≡ spec.reset_pending wanted.now group.old }
    ensures notes { notes.new ≡ notes.old ++ replaced_note group.old.reset }
{
    if let Some(pending) = &group.reset {
        tell_reset(pending, Finish::Aborted, notes);
    }
    group.reset = Some(PendingReset {
        owner: wanted.owner,
    });
}

// Whether a pending GroupReset is done, with the group on a path or not.
fn may_reset(on_path: bool, group: &Group) -> bool
    ensures { result ≡ spec.may_reset on_path group.now }
{
    !(is_error_stop(group.state) && on_path)
}

// The state after a GroupReset, where an axis is not in Standstill or none is.
fn reset_from(moved: bool, state: GroupState) -> GroupState
    ensures { result ≡ spec.reset_from moved state }
{
    match (moved, state) {
        (false, GroupState::GroupErrorStop) => group_next(state, GroupEvent::ResetAllStandstill),
        (true, GroupState::GroupErrorStop) => group_next(state, GroupEvent::ResetElse),
        _ => state,
    }
}

// The group after a GroupReset.
fn finish_reset(members: &GroupLook, group: &mut Group)
    requires { members.now.count ≤ 6 }
    ensures { group.new ≡ spec.after_reset (refusals.states_in members.now) group.old }
{
    group.state = reset_from(any_moved(states_in(members)), group.state);
    group.error = 0;
    group.reset = None;
}

/// A pending GroupReset is done where it may be.
#[tactic(auto, unfolding(crate::specs::Cycles::reset_where))]
pub fn reset(members: &GroupLook, on_path: bool, group: &mut Group, notes: &mut Notes)
    requires count { members.now.count ≤ 6 }
    requires room { length notes.old < 12 }
    ensures group { group.new ≡ reset_where members.now on_path group.old }
    ensures notes { notes.new ≡ notes.old ++ spec.reset_notes group.old.reset on_path group.old }
{
    let Some(pending) = group.reset else {
        return;
    };
    if may_reset(on_path, group) {
        finish_reset(members, group);
        tell_reset(&pending, Finish::Done, notes);
    }
}
