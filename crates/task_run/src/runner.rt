// Runs the program of a task by a caller.

ghost use Rattle.std.specs.Prelude.{◌≡◌, ◌<◌, ◌↔◌, [], false, ℕ, List, IsTrue, length, not, slice_index_or};
ghost use Rattle.std.specs.List.{AllByRecursion};
ghost use Rattle.motion_history.specs.Setup.{Setup};
ghost use Rattle.plc_program.specs.Programs.{IsLineOf, IsProgramOf};
ghost use Rattle.plc_program.specs.declared.program.Instruction.{Instruction};
ghost use Rattle.task_run.specs.Callers.{IsSameTask, IsUnused};
ghost use Rattle.task_run.specs.Runs.{IsRun, lines_of};
ghost use Rattle.task_run.specs.TaskCalls.{IsEndedBy, TaskCalls, state_behind};
ghost use Rattle.task_run.specs.Tasks.{first_state};

use crate::caller::Caller;
use crate::run::{Next, TaskRun};
use plc_program::Program;
use std::sync::Wait;

/// Makes the calls of a task's program, from the first on, until it ends or one is refused, and
/// says whether it came to its end. The run was opened on this program, and was not used since; it
/// then stands after the calls that were made.
pub fn run_task<R: Wait, C: Caller>(
    rt: &R,
    program: &Program,
    run: &mut TaskRun,
    caller: &mut C,
) -> bool
    requires opened { IsRun program.now run.old (first_state (lines_of program.now run.old)) }
    requires own { AllByRecursion (IsLineOf (C.told caller.old).config (C.told caller.old).task)
        (lines_of program.now run.old) }
    requires unused { IsUnused (C.told caller.old) }
    // The calls are the program's, for the replies got.
    ensures calls { TaskCalls (lines_of program.now run.old) (C.told caller.new).calls }
    ensures ended { IsTrue result ↔
        IsEndedBy (lines_of program.now run.old) (C.told caller.new).calls }
    // It answers false exactly where a call was refused.
    ensures refused { (C.told caller.new).refused ≡ not result }
    // The run stands after the calls that were made, and rests no more.
    ensures stands { IsRun program.now run.new (record (state_behind
        (first_state (lines_of program.now run.old)) (C.told caller.new).calls) { rests = false }) }
    ensures task { run.new.task ≡ run.old.task }
    ensures same { IsSameTask (C.told caller.old) (C.told caller.new) }
    ensures fixed { C.fixed caller.new ≡ C.fixed caller.old }
{
    for _ in rt.forever() {
        match run.next(program) {
            Next::Call { instance, inputs } => {
                let Some(reply) = caller.call(rt, instance, &inputs) else {
                    return false;
                };
                run.answered(program, &reply);
            }
            Next::Rest => {
                caller.rest();
                run.rested(program);
            }
            Next::End => return true,
        }
    }
    unreachable!()
}

/// The lines of each task of a machine's program are lines of this task, as `run_task` asks.
pub fn tasks_have_their_own_lines()
    ensures { (s : Setup) (program : List (List Instruction)) (task : ℕ) →
        IsProgramOf s program → task < length program →
        AllByRecursion (IsLineOf s task) (slice_index_or program task []) }
{}
