// What a cycle makes of the groups: their steps, and their pending GroupResets.

ghost use Rattle.std.specs.Prelude.{◌≡◌, ◌<◌, ◌++◌, ◌∷◌, [], ℕ, length, map, pos, slice_index_or, slice_set};
ghost use Rattle.group_core.specs.Cycles as group_spec;
ghost use Rattle.motion_history.specs.Entries.{cycles_of};
ghost use Rattle.motion_kernel.specs.looks.DriveAnswers as answers;
ghost use Rattle.motion_kernel.specs.cycles.GroupSteps as spec;
ghost use Rattle.motion_kernel.specs.cycles.GroupResets as resets;
ghost use Rattle.motion_kernel.specs.Machine.{group_core_at};
ghost use Rattle.motion_kernel.specs.kept.Machine.{IsSized};
ghost use Rattle.motion_kernel.specs.members.Members.{member_at};
ghost use Rattle.motion_kernel.specs.kept.Ready.{MayLook, MayStep};
ghost use Rattle.motion_kernel.specs.Seen.{machine_of};

use crate::drive_answers::answer_at;
use crate::group_calls::list_of;
use crate::group_looks::group_look;
use crate::layout::Layout;
use crate::parts::Parts;
use crate::telling::tell;
use axis_core::AxisCore;
use command_pool::Notes;
use group_core::{GroupRow, GroupStep};
use motion_history::History;
use plc_types::DriveIn;

// The error that the first of some axes gets from its drive's answer, or 0.
fn first_error(members: &[u8], axes: &[AxisCore], ins: &[DriveIn]) -> u16
    requires { (place : ℕ) → place < length members.now →
        member_at members.now place < length axes.now }
    ensures { result ≡ answers.first_error axes.now ins.now members.now }
{
    for axis in members {
        let error = axes[*axis as usize].answer_error(&answer_at(ins, *axis));
        if error != 0 {
            return error;
        }
    }
    0
}

// A group takes its step. Out of line it leaves the cycles of machines without groups short.
#[inline(never)]
fn step_group(layout: &Layout, group: u8, ins: &[DriveIn], parts: &mut Parts) -> GroupStep
    requires sized { IsSized layout.now (machine_of parts.old) }
    requires there { group < length layout.now.groups }
    requires may { MayLook layout.now (machine_of parts.old) group
        (spec.error_of_group layout.now (machine_of parts.old) ins.now group) }
    ensures step { result ≡ group_spec.step_of (spec.look_in_cycle layout.now ins.now group
        (machine_of parts.old)) (group_core_at (machine_of parts.old) group) }
    ensures after { machine_of parts.new ≡ spec.after_group_step layout.now ins.now group
        (machine_of parts.old) }
{
    let error = first_error(layout.members_of(group), parts.axes.as_slice(), ins);
    let look = group_look(layout, group, error, parts);
    let list = list_of(group, parts);
    let mut notes = Notes::new();
    let core = &mut parts.groups[group as usize];
    let step = core.cycle(&mut parts.pool, list, &look, &mut notes);
    tell(&notes, parts);
    step
}

/// All groups take their steps, one after another.
pub fn step_groups(layout: &Layout, ins: &[DriveIn], parts: &mut Parts, steps: &mut [GroupStep])
    requires sized { IsSized layout.now (machine_of parts.old) }
    requires may { MayStep layout.now ins.now (machine_of parts.old) }
    requires steps { length steps.old ≡ length (machine_of parts.old).groups }
    ensures after { machine_of parts.new ≡ (spec.groups_stepped layout.now (length
        (machine_of parts.old).groups) ins.now (machine_of parts.old)).machine }
    ensures steps { steps.new ≡ (spec.groups_stepped layout.now (length
        (machine_of parts.old).groups) ins.now (machine_of parts.old)).steps }
    ensures sized { IsSized layout.now (machine_of parts.new) }
{
    for group in 0..parts.groups.len() {
        steps[group] = step_group(layout, group as u8, ins, parts);
    }
}

// A pending GroupReset is done, where it may be; the row shows the group after it. It is out of
// line as the group's step is.
#[inline(never)]
fn reset_pending(layout: &Layout, group: u8, parts: &mut Parts) -> GroupRow
    requires sized { IsSized layout.now (machine_of parts.old) }
    requires there { group < length layout.now.groups }
    ensures row { result ≡ group_spec.row_of (resets.core_after_reset layout.now group
        (machine_of parts.old)).group }
    ensures after { machine_of parts.new ≡ resets.after_group_reset layout.now group
        (machine_of parts.old) }
{
    let look = group_look(layout, group, 0, parts);
    let mut notes = Notes::new();
    let core = &mut parts.groups[group as usize];
    let row = core.reset_cycle(&look, &mut notes);
    tell(&notes, parts);
    row
}

// The same, and of a group without a pending GroupReset the row alone.
fn reset_group(layout: &Layout, group: u8, parts: &mut Parts) -> GroupRow
    requires sized { IsSized layout.now (machine_of parts.old) }
    requires there { group < length layout.now.groups }
    ensures row { result ≡ group_spec.row_of (resets.core_after_reset layout.now group
        (machine_of parts.old)).group }
    ensures after { machine_of parts.new ≡ resets.after_group_reset layout.now group
        (machine_of parts.old) }
{
    let found = &parts.groups[group as usize].group().group;
    if found.reset.is_none() {
        return GroupRow {
            state: found.state,
            error: found.error,
        };
    }
    reset_pending(layout, group, parts)
}

/// All groups' pending GroupResets, one after another: their rows are the history's.
pub fn reset_groups(layout: &Layout, parts: &mut Parts, history: &mut History)
    requires sized { IsSized layout.now (machine_of parts.old) }
    requires cycle { cycles_of history.old.entries < history.old.cycles }
    requires none { history.old.group_rows ≡ [] }
    requires rows { history.old.groups ≡ length (machine_of parts.old).groups }
    ensures after { machine_of parts.new ≡ (resets.groups_reset layout.now (length
        (machine_of parts.old).groups) (machine_of parts.old)).machine }
    ensures rows { history.new ≡ record history.old {
      group_rows = (resets.groups_reset layout.now (length (machine_of parts.old).groups)
          (machine_of parts.old)).rows;
    } }
    ensures sized { IsSized layout.now (machine_of parts.new) }
{
    for group in 0..parts.groups.len() {
        let row = reset_group(layout, group as u8, parts);
        history.push_group_row(row);
    }
}
