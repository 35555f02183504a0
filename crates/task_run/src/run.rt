// The run of a task's program.

ghost use Rattle.std.specs.Prelude.{◌≡◌, ◌<◌, [], ℕ, List, length};
ghost use Rattle.std.specs.List.{Contains};
ghost use Rattle.plc_types.specs.declared.inputs.Inputs.{Inputs};
ghost use Rattle.plc_program.specs.declared.program.Instruction.{Instruction};
ghost use Rattle.task_run.specs.Tasks as spec;
ghost use Rattle.task_run.specs.Tasks.{TaskState};

use crate::last::last_call;
use crate::outputs::is_passed;
use crate::place::{ProgramPosition, line_at, moved, settled};
use plc_program::{Instruction, Program};
use plc_types::{Inputs, Outputs};

/// What a task does next.
#[derive(Clone, Copy, Debug, PartialEq, Eq)]
pub enum Next {
    /// It calls a block, by its number.
    Call { instance: u16, inputs: Inputs },
    /// It rests until the number of cycles has grown.
    Rest,
    /// It has come to its end.
    End,
}

/// The run of a task: where it stands in its program. It keeps a line and how often the lines of
/// a repeat were run, never the lines written out.
#[derive(Clone, Copy)]
pub struct TaskRun {
    pub(crate) task: u8,
    pub(crate) place: ProgramPosition,
    pub(crate) resting: bool,
}

impl TaskRun {
    ghost use Rattle.task_run.specs.Runs.{IsRun, lines_of};

    /// A run at the beginning of a task of this program.
    pub fn open(program: &Program, task: u8) -> TaskRun
        requires { task < length program.now }
        ensures task { result.task ≡ task }
        ensures run { IsRun program.now result (spec.first_state (lines_of program.now result)) }
    {
        let lines = program.lines(task);
        let first = ProgramPosition {
            line: 0,
            pass: None,
        };
        TaskRun {
            task,
            place: settled(lines, first),
            resting: false,
        }
    }

    /// What the task does next: its call, a rest, or nothing, at its end. The program is the one
    /// that it was opened on.
    #[tactic(auto, unfolding(crate::specs::Tasks::next_of))]
    pub fn next(&self, program: &Program) -> Next
        requires { (s : TaskState) × IsRun program.now self.now s }
        ensures next { (s : TaskState) → IsRun program.now self.now s → result ≡ spec.next_of s }
        // A call stands in the task's lines; a wait's is the last call of its block.
        ensures line { (instance : ℕ) → (inputs : Inputs) → result ≡ Next.Call instance inputs →
            Contains (lines_of program.now self.now) (Instruction.Call instance inputs) }
        // The end comes after the last line alone.
        ensures ended { result ≡ Next.End → (s : TaskState) → IsRun program.now self.now s →
            s.to_come ≡ [] }
    {
        if self.resting {
            return Next::Rest;
        }
        let lines = program.lines(self.task);
        match line_at(lines, self.place.line) {
            Some(Instruction::Call { instance, inputs }) => Next::Call { instance, inputs },
            Some(Instruction::Wait { instance, .. }) => {
                called_again(instance, last_call(instance, lines, self.place))
            }
            Some(Instruction::Repeat { .. }) | Some(Instruction::Again) => Next::End,
            None => Next::End,
        }
    }

    /// Goes on by the reply to the call that `next` gave.
    #[tactic(auto, unfolding(crate::specs::Tasks::state_after))]
    pub fn answered(&mut self, program: &Program, outputs: &Outputs)
        requires { (s : TaskState) × IsRun program.now self.old s }
        ensures run { (s : TaskState) → IsRun program.now self.old s →
            IsRun program.now self.new (spec.state_after s outputs.now) }
        ensures task { self.new.task ≡ self.old.task }
    {
        let lines = program.lines(self.task);
        self.resting = false;
        let Some(line) = line_at(lines, self.place.line) else {
            return;
        };
        if is_passed(&line, outputs) {
            self.place = moved(lines, self.place);
        } else {
            self.resting = true;
        }
    }

    /// Ends the rest that `next` gave: the number of cycles has grown.
    pub fn rested(&mut self, program: &Program)
        requires { (s : TaskState) × IsRun program.now self.old s }
        ensures run { (s : TaskState) → IsRun program.now self.old s →
            IsRun program.now self.new (spec.state_rested s) }
        ensures task { self.new.task ≡ self.old.task }
    {
        self.resting = false;
    }
}

// A call of a block with the inputs of its last.
fn called_again(instance: u16, inputs: Option<Inputs>) -> Next
    ensures { result ≡ spec.call_by instance inputs }
{
    match inputs {
        Some(inputs) => Next::Call { instance, inputs },
        None => Next::End,
    }
}
