// The events of a trace, made on the kernel.

ghost use Rattle.std.specs.Prelude.{◌≡◌, ◌<◌, ◌++◌, ◌∷◌, [], IsTrue, length};
ghost use Rattle.motion_history.specs.Entries.{cycles_of};
ghost use Rattle.motion_history.specs.Looks.{told};
ghost use Rattle.motion_kernel.specs.Segments.{machine_now};
ghost use Rattle.motion_kernel.specs.Histories.{inputs_of};
ghost use Rattle.trace_check.specs.Events.{IsEvent};
ghost use Rattle.trace_check.specs.Replays as spec;
ghost use Rattle.trace_check.specs.Replays.{cycle_of, with_made_from};

use motion_history::{EntryLook, MOST_AXES};
use motion_kernel::SegmentedKernel;
use plc_types::{AxisRow, DriveIn, NO_ANSWER, NO_OUTPUT};

/// Whether the history has room for an entry more, and where it is a cycle also for that.
pub fn has_room(kernel: &SegmentedKernel, entry: &EntryLook<'_>) -> bool
    ensures { result ≡ spec.has_room kernel.now.config kernel.now.history (told entry.now) }
{
    let is_in_time = match entry {
        EntryLook::Cycle { .. } => kernel.cycles_left() != 0,
        _ => true,
    };
    kernel.room_left() != 0 && is_in_time
}

// The answers that the rows of a cycle show.
fn take_answers(rows: &[AxisRow], answers: &mut [DriveIn])
    requires { length answers.old ≡ length rows.now }
    ensures { answers.new ≡ inputs_of rows.now }
{
    for (i, row) in rows.iter().enumerate() {
        answers[i] = row.input;
    }
}

// Goes through a cycle with the answers that these rows show.
fn make_cycle(kernel: &mut SegmentedKernel, rows: &[AxisRow])
    requires room { length kernel.old.history < kernel.old.config.entries }
    requires cycle { cycles_of kernel.old.history < kernel.old.config.cycles }
    requires rows { length rows.now ≡ length kernel.old.config.axes }
    ensures { kernel.new ≡ record kernel.old {
      history = kernel.old.history ++
          cycle_of kernel.old.config (cycles_of kernel.old.history) (machine_now kernel.old)
          (inputs_of rows.now) ∷ [];
    } }
{
    let mut answers = [NO_ANSWER; MOST_AXES];
    let answers = &mut answers[..kernel.config().axes().len()];
    let mut outs = [NO_OUTPUT; MOST_AXES];
    take_answers(rows, answers);
    kernel.cycle(answers, &mut outs[..answers.len()]);
}

/// Makes the event of an entry, for which there is room.
pub fn make(kernel: &mut SegmentedKernel, entry: &EntryLook<'_>)
    requires room { IsTrue (spec.has_room kernel.old.config kernel.old.history (told entry.now)) }
    requires event { IsEvent kernel.old.config (told entry.now) }
    ensures { kernel.new ≡ record kernel.old {
      history = with_made_from kernel.old.config kernel.old.start kernel.old.history
          (told entry.now);
    } }
{
    match entry {
        EntryLook::Call {
            instance,
            inputs,
            ..
        } => {
            kernel.call(*instance, inputs);
        }
        EntryLook::Cycle { axes, .. } => make_cycle(kernel, axes),
        EntryLook::End { task } => kernel.end(*task),
    }
}
