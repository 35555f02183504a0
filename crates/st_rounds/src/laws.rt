// Laws of rounds: each is the contract of a function that does nothing.

ghost use Rattle.std.specs.Prelude.{◌≡◌, ℕ, Ok, Some, slice_get};
ghost use Rattle.bench_run.specs.InStep.{AreInStep};
ghost use Rattle.machine_drives.specs.Drives.{drives_at_opening};
ghost use Rattle.st_tree.specs.declared.program.Task.{Task};
ghost use Rattle.st_rounds.specs.Cell.{Cell};
ghost use Rattle.st_rounds.specs.Endings.{EndsForItsCause};
ghost use Rattle.st_rounds.specs.Ready.{AreReady};
ghost use Rattle.st_rounds.specs.Rounds.{run_of};
ghost use Rattle.st_rounds.specs.TaskScans.{HasEnded, IsMadeBy, own_entries};

use bench_run::{events_keep_drives_in_step, runs_end_for_their_cause};
use motion_history::cycles_add_up;
use st_exec::{scans_ask_in_order, scans_have_their_operands};

/// The drives of a machine that is run with its tasks are in step with its history: each is where
/// the outputs of its axis lead it, and the rows of each cycle are the machine's with the answers
/// that the drives give after the cycles before it. Nothing runs.
pub fn rounds_are_in_step()
    ensures { (c : Cell) → AreInStep c.setup (drives_at_opening c.setup.axes c.drives) (run_of c) }
{
    events_keep_drives_in_step();
}

/// The entries of each task in the history of a run are those of its scans, each with its own
/// replies: the calls of a scan in their order and each once, from the variables and last replies
/// that the scan before left, and the task's end after its last. Where the run ends with Ok each
/// task has made its end. Nothing runs.
pub fn tasks_make_their_scans()
    ensures made { (c : Cell) → AreReady c.setup c.cycle_us c.trees → (n : ℕ) (t : Task) →
        slice_get c.trees n ≡ Some t →
        IsMadeBy c n t (own_entries c.setup n (run_of c).history) }
    ensures ended { (c : Cell) → AreReady c.setup c.cycle_us c.trees → (n : ℕ) (t : Task) →
        slice_get c.trees n ≡ Some t → (run_of c).ending ≡ Ok tt →
        HasEnded c n t (own_entries c.setup n (run_of c).history) }
{
    cycles_add_up();
    scans_ask_in_order();
    scans_have_their_operands();
}

/// The rounds of a machine end for their cause alone, before their tasks do: with CyclesOver
/// exactly where a cycle comes and none is left, with HistoryFull exactly where an event comes with
/// the history full, and if it is a cycle one is left. Nothing runs.
pub fn rounds_end_for_their_cause()
    ensures { (c : Cell) → EndsForItsCause c }
{
    runs_end_for_their_cause();
}
