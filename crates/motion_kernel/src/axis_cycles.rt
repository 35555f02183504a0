// What a cycle makes of the axes.

ghost use Rattle.std.specs.Prelude.{◌≡◌, ◌<◌, ◌++◌, ◌∷◌, [], ℕ, length, map, pos, slice_index_or, slice_set};
ghost use Rattle.plc_types.specs.declared.axis.AxisRow.{AxisRow};
ghost use Rattle.motion_history.specs.Entries.{cycles_of};
ghost use Rattle.motion_kernel.specs.looks.Around.{around_of};
ghost use Rattle.motion_kernel.specs.cycles.AxisCycles as spec;
ghost use Rattle.motion_kernel.specs.kept.Machine.{IsSized};
ghost use Rattle.motion_kernel.specs.kept.Ready.{MayCycle, MayGoOn};
ghost use Rattle.motion_kernel.specs.Seen.{machine_of};

use crate::axis_looks::{Around, axis_look};
use crate::layout::Layout;
use crate::parts::Parts;
use crate::telling::tell_and_clear;
use command_pool::Notes;
use motion_history::History;
use plc_types::{AxisRow, DriveOut};

// An axis goes through the cycle: there are no notes before it, and none after it.
fn cycle_axis(
    layout: &Layout,
    around: &Around,
    axis: u8,
    parts: &mut Parts,
    notes: &mut Notes,
) -> AxisRow
    requires none { notes.old ≡ [] }
    requires sized { IsSized layout.now (machine_of parts.old) }
    requires there { axis < length layout.now.axes }
    requires may { MayCycle layout.now (around_of around.now) (machine_of parts.old) axis }
    ensures row { result ≡ spec.row_in_cycle layout.now (around_of around.now) axis
        (machine_of parts.old) }
    ensures after { machine_of parts.new ≡ spec.after_axis_cycle layout.now
        (around_of around.now) axis (machine_of parts.old) }
    ensures none { notes.new ≡ [] }
{
    let look = axis_look(layout, around, axis, parts);
    let core = &mut parts.axes[axis as usize];
    let row = core.cycle(&mut parts.pool, axis, &look, notes);
    tell_and_clear(notes, parts);
    row
}

// The row of an axis is the next of the history's, and its drive gets what it gives.
fn put_row(row: AxisRow, axis: usize, history: &mut History, outs: &mut [DriveOut])
    requires cycle { cycles_of history.old.entries < history.old.cycles }
    requires room { length history.old.rows < history.old.axes }
    requires out { axis < length outs.old }
    ensures row { history.new ≡ record history.old { rows = history.old.rows ++ row ∷ [] } }
    ensures out { outs.new ≡ slice_set outs.old axis row.output }
{
    outs[axis] = row.output;
    history.push_row(row);
}

/// All axes go through the cycle, one after another: their rows are the history's, and their drives
/// get what these give.
pub fn cycle_axes(
    layout: &Layout,
    around: &Around,
    parts: &mut Parts,
    history: &mut History,
    outs: &mut [DriveOut],
)
    requires sized { IsSized layout.now (machine_of parts.old) }
    requires may { MayGoOn layout.now (around_of around.now) (machine_of parts.old) }
    requires cycle { cycles_of history.old.entries < history.old.cycles }
    requires none { history.old.rows ≡ [] }
    requires rows { history.old.axes ≡ length (machine_of parts.old).axes }
    requires outs { length outs.old ≡ length (machine_of parts.old).axes }
    ensures after { machine_of parts.new ≡ (spec.axes_cycled layout.now (length
        (machine_of parts.old).axes) (around_of around.now) (machine_of parts.old)).machine }
    ensures rows { history.new ≡ record history.old {
      rows = (spec.axes_cycled layout.now (length (machine_of parts.old).axes)
          (around_of around.now) (machine_of parts.old)).rows;
    } }
    ensures outs { outs.new ≡ map (λ (r : AxisRow). r.output) (spec.axes_cycled layout.now (length
        (machine_of parts.old).axes) (around_of around.now) (machine_of parts.old)).rows }
    ensures sized { IsSized layout.now (machine_of parts.new) }
{
    let mut notes = Notes::new();
    for axis in 0..parts.axes.len() {
        let row = cycle_axis(layout, around, axis as u8, parts, &mut notes);
        put_row(row, axis, history, outs);
    }
}
