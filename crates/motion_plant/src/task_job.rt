// The job of a task: its program, called by a permit of the kernel's turns, and its end.

ghost use Rattle.std.specs.Prelude.{◌≡◌, ◌<◌, ◌≤◌, ◌++◌, ◌∷◌, [], List, false, length, true};
ghost use Rattle.std.specs.Arc.{arc_value};
ghost use Rattle.motion_history.specs.Entries.{Entry, end_of};
ghost use Rattle.motion_history.specs.declared.sizes.TheConstants.{MOST_CYCLES};
ghost use Rattle.motion_plant.specs.Calls.{AreCalls, IsCut, fixed_part, logged_calls};
ghost use Rattle.motion_plant.specs.Makers.{IsBy, Owns, own_entries};
ghost use Rattle.motion_plant.specs.TaskEnds.{TaskDone};
ghost use Rattle.plc_program.specs.Programs.{IsProgramOf};
ghost use Rattle.task_run.specs.Runs.{IsRun, lines_of};
ghost use Rattle.task_run.specs.TaskCalls.{IsEndedBy, TaskCalls};
ghost use Rattle.task_run.specs.Tasks.{first_state};

use crate::caller::{TaskTurns, TurnCaller};
use kernel_turn::{KernelTurn, Permit, Turn};
use outside::Gate;
use plc_program::Program;
use std::sync::{Arc, Wait};
use task_run::{TaskRun, run_task, tasks_have_their_own_lines};

/// A task as it is given to a thread: its permit of the kernel's turns, its program and its run,
/// and the gate of its turns.
#[derive(Drop)]
pub struct TaskJob<G: Gate + Drop> {
    pub turn: Arc<KernelTurn>,
    pub permit: Permit,
    pub program: Arc<Program>,
    pub run: TaskRun,
    pub task: u8,
    pub gate: G,
}

/// A task's pass, and whether the task has ended.
#[derive(Drop)]
pub struct TaskJobEnd {
    pub permit: Permit,
    pub ended: bool,
}

/// Runs a task's program, and ends the task where the program came to its end. Waits for its turns,
/// and after a rest for a cycle, so that it may never return.
pub fn work_task<R: Wait, G: Gate + Drop>(rt: &R, job: TaskJob<G>) -> TaskJobEnd
    requires own { job.permit.table ≡ arc_value job.turn }
    requires unused { job.permit.own ≡ [] }
    requires small { job.permit.config.cycles ≤ MOST_CYCLES }
    requires program { IsProgramOf job.permit.config (arc_value job.program) }
    requires run { IsRun (arc_value job.program) job.run
        (first_state (lines_of (arc_value job.program) job.run)) }
    requires task { job.run.task ≡ job.task }
    ensures done { TaskDone job.permit job.task (lines_of (arc_value job.program) job.run) result }
{
    let TaskJob {
        turn,
        permit,
        program,
        run,
        task,
        gate,
    } = job;
    let turns = TaskTurns {
        turn: &turn,
        gate: &gate,
        task,
    };
    run_program(rt, &turns, permit, &program, run)
}

// Runs a program, and ends its task where it came to its end.
fn run_program<R: Wait, G: Gate + Drop>(
    rt: &R,
    turns: &TaskTurns<G>,
    permit: Permit,
    program: &Program,
    run: TaskRun,
) -> TaskJobEnd
    requires own { permit.table ≡ turns.now.turn.now }
    requires unused { permit.own ≡ [] }
    requires small { permit.config.cycles ≤ MOST_CYCLES }
    requires program { IsProgramOf permit.config program.now }
    requires run { IsRun program.now run (first_state (lines_of program.now run)) }
    requires task { run.task ≡ turns.now.task }
    ensures done { TaskDone permit turns.now.task (lines_of program.now run) result }
{
    let (mut permit, through) = make_calls(rt, turns, permit, program, run);
    if !through {
        return TaskJobEnd {
            permit,
            ended: false,
        };
    }
    let ended = end_task(rt, turns, &mut permit);
    TaskJobEnd { permit, ended }
}

// Makes the calls of a program, and says whether it came to its end.
fn make_calls<R: Wait, G: Gate + Drop>(
    rt: &R,
    turns: &TaskTurns<G>,
    permit: Permit,
    program: &Program,
    run: TaskRun,
) -> (Permit, bool)
    requires own { permit.table ≡ turns.now.turn.now }
    requires unused { permit.own ≡ [] }
    requires small { permit.config.cycles ≤ MOST_CYCLES }
    requires program { IsProgramOf permit.config program.now }
    requires run { IsRun program.now run (first_state (lines_of program.now run)) }
    requires task { run.task ≡ turns.now.task }
    ensures fixed { fixed_part result.0 ≡ fixed_part permit }
    ensures owns { Owns (IsBy permit.config turns.now.task) result.0.own result.0.seen }
    ensures calls { AreCalls (own_entries result.0.own result.0.seen) }
    ensures follows { TaskCalls (lines_of program.now run)
        (logged_calls (own_entries result.0.own result.0.seen)) }
    ensures through { result.1 ≡ true → IsEndedBy (lines_of program.now run)
        (logged_calls (own_entries result.0.own result.0.seen)) }
    ensures cut { result.1 ≡ false → IsCut result.0 }
{
    // laws
    tasks_have_their_own_lines();
    let mut run = run;
    let mut caller = TurnCaller {
        turns,
        permit,
        asks_rest: false,
        last: 0,
        was_refused: false,
    };
    let through = run_task(rt, program, &mut run, &mut caller);
    let TurnCaller { permit, .. } = caller;
    (permit, through)
}

// Ends a task where there is room, and says whether there was.
fn end_task<R: Wait, G: Gate + Drop>(rt: &R, turns: &TaskTurns<G>, permit: &mut Permit) -> bool
    requires own { permit.old.table ≡ turns.now.turn.now }
    requires task { turns.now.task < length permit.old.config.tasks }
    requires owns { Owns (IsBy permit.old.config turns.now.task) permit.old.own permit.old.seen }
    ensures fixed { fixed_part permit.new ≡ fixed_part permit.old }
    ensures owns { Owns (IsBy permit.old.config turns.now.task) permit.new.own permit.new.seen }
    ensures ended { result ≡ true → (before : List Entry) ×
        (own_entries permit.new.own permit.new.seen ≡ own_entries permit.old.own permit.old.seen ++
        record { before = before; entry = end_of turns.now.task } ∷ []) }
    ensures refused { result ≡ false →
        own_entries permit.new.own permit.new.seen ≡ own_entries permit.old.own permit.old.seen }
    ensures cut { result ≡ false → IsCut permit.new }
{
    turns.gate.before(turns.task);
    let answer = turns.turn.turn_end(rt, permit, turns.task);
    turns.gate.after(turns.task);
    match answer {
        Turn::Made { .. } => true,
        Turn::Full { .. } => false,
        Turn::Early { .. } => unreachable!(),
    }
}
