// Laws of runs: each is the contract of a function that does nothing.

ghost use Rattle.std.specs.Prelude.{◌≡◌, ◌↔◌, Err, List, Ok, length};
ghost use Rattle.bench_text.specs.BenchState.{BenchState};
ghost use Rattle.drive_sim.specs.Sim.{DriveSim};
ghost use Rattle.motion_history.specs.Setup.{Setup};
ghost use Rattle.bench_run.specs.Endings.{EndsAt, IsFull, IsOver};
ghost use Rattle.bench_run.specs.Enough.{HasRoom};
ghost use Rattle.bench_run.specs.InStep.{AreInStep, IsInStep};
ghost use Rattle.bench_run.specs.Run.{Event, Run, events_in, first_run, made, made_all, run_of};
ghost use Rattle.bench_run.specs.declared.bench.RunFault.{RunFault};
ghost use Rattle.bench_run.specs.declared.bench.RunFault.TheVariants.{CyclesOver, HistoryFull};

use machine_drives::drives_follow_their_outputs;
use motion_history::cycles_add_up;

/// The drives of a run are in step with its history. Nothing runs.
pub fn runs_are_in_step()
    ensures { (b : BenchState) → IsInStep b }
{
    drives_follow_their_outputs();
}

/// Where there are room and cycles enough, all events are made; and where all are made, each has
/// its entry. Nothing runs.
pub fn room_is_enough()
    ensures ending { (b : BenchState) → HasRoom b → (run_of b).ending ≡ Ok tt }
    ensures entries { (b : BenchState) → (run_of b).ending ≡ Ok tt →
        length (run_of b).history ≡ length (events_in b) }
{
    cycles_add_up();
}

/// The drives of a run are in step with its history at first, and each event keeps them so. Nothing
/// runs.
pub fn events_keep_drives_in_step()
    ensures first { (s : Setup) (ds : List DriveSim) → AreInStep s ds (first_run ds) }
    ensures event { (s : Setup) (ds : List DriveSim) (e : Event) (r : Run) → AreInStep s ds r →
        AreInStep s ds (made s e r) }
{
    drives_follow_their_outputs();
}

/// Events one after another end a run for their cause alone: with CyclesOver exactly where one of
/// them, before which all were made, is a cycle and none is left; with HistoryFull exactly where
/// the history is then full and, if it is a cycle, one is left. Nothing runs.
pub fn runs_end_for_their_cause()
    ensures over { (s : Setup) (events : List Event) (r : Run) → r.ending ≡ Ok tt →
        ((made_all s events r).ending ≡ Err CyclesOver) ↔ EndsAt s r events (IsOver s) }
    ensures full { (s : Setup) (events : List Event) (r : Run) → r.ending ≡ Ok tt →
        ((made_all s events r).ending ≡ Err HistoryFull) ↔ EndsAt s r events (IsFull s) }
{}

/// A run that has ended stays as it is, whatever event comes. Nothing runs.
pub fn ended_runs_stay()
    ensures { (s : Setup) (e : Event) (r : Run) (f : RunFault) → r.ending ≡ Err f →
        made s e r ≡ r }
{}
