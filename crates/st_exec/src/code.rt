// The code of a program's tasks.

ghost use Rattle.std.specs.Prelude.{◌≡◌, ◌<◌, IfOk, length, map, position};
ghost use Rattle.machine_words.specs.Units.{IsCycle};
ghost use Rattle.st_exec.specs.Compiled as spec;
ghost use Rattle.st_exec.specs.Compiled.{IsSound, program_of, seen};

use crate::emit::code_of_body;
use crate::instruction::Instruction;
use crate::values::truth_of;
use motion_numbers::OutOfMemory;
use st_tree::{StProgram, Start, Task, Variable};
use std::alloc::Global;
use std::marker::Model;

/// The code of a task.
#[derive(Drop)]
pub struct TaskCode {
    pub(crate) instructions: Vec<Instruction>,
    /// The values of its variables before the first scan.
    pub(crate) start: Vec<i32>,
    /// The variable that ends it, where it has one.
    pub(crate) finished: Option<usize>,
}

/// The code of a program. Contracts see it as a `Compiled`.
#[derive(Drop)]
pub struct StCode {
    cycle_us: u32,
    tasks: Vec<TaskCode>,
}

impl Model for StCode {
    ghost use Rattle.std.specs.Prelude.{map};
    ghost use Rattle.st_exec.specs.Compiled.{Compiled, IsSound, seen};

    ghost Value = { Compiled };

    ghost view = { λ c. record { us = c.cycle_us; tasks = map seen c.tasks.items } };

    ghost invariant = { λ c. IsSound (record { us = c.cycle_us; tasks = map seen c.tasks.items }) };
}

impl StCode {
    /// The length of a cycle in microseconds.
    pub fn cycle_us(&self) -> u32
        ensures value { result ≡ self.now.us }
        ensures cycle { IsCycle result }
    {
        self.cycle_us
    }

    /// How many tasks it has.
    pub fn tasks(&self) -> usize
        ensures { result ≡ length self.now.tasks }
    {
        self.tasks.len()
    }

    /// The code of a task.
    #[tactic(auto, unfolding(crate::specs::Compiled::program_at))]
    pub(crate) fn task(&self, task: u8) -> &TaskCode
        requires { task < length self.now.tasks }
        ensures value { seen result.now ≡ spec.program_at self.now task }
        ensures sound { IsSound self.now }
    {
        &self.tasks[task as usize]
    }
}

// The value of a variable before the first scan.
fn start_of(variable: &Variable) -> i32
    ensures { result ≡ spec.start_of variable.now }
{
    match variable.start {
        Start::Bool(holds) => truth_of(holds),
        Start::Dint(number) => number,
    }
}

// The values of variables before the first scan.
fn starts_of(alloc: Global, variables: &[Variable]) -> Result<Vec<i32>, OutOfMemory>
    ensures { IfOk result (λ v. v.items ≡ map spec.start_of variables.now) }
{
    let mut starts = Vec::new(alloc);
    for variable in variables {
        let Ok(()) = starts.push(start_of(variable)) else {
            return Err(OutOfMemory);
        };
    }
    Ok(starts)
}

// Whether a task ends by this variable.
#[tactic(auto, unfolding(crate::specs::Compiled::ends_by))]
fn ends_by(variable: &Variable) -> bool
    ensures { result ≡ spec.ends_by variable.now }
{
    let is_bool = match variable.start {
        Start::Bool(_) => true,
        Start::Dint(_) => false,
    };
    is_bool && variable.name.bytes() == b"finished".as_slice()
}

// The variable that ends a task, where it has one.
fn finished_of(variables: &[Variable]) -> Option<usize>
    ensures { result ≡ position spec.ends_by variables.now }
{
    variables.iter().position(|variable| ends_by(variable))
}

// The code of a task.
#[tactic(auto, unfolding(crate::specs::Compiled::program_of))]
fn code_of_task(alloc: Global, task: &Task) -> Result<TaskCode, OutOfMemory>
    ensures { IfOk result (λ c. seen c ≡ program_of task.now) }
{
    let instructions = code_of_body(alloc, task.body.as_slice())?;
    let start = starts_of(alloc, task.variables.as_slice())?;
    Ok(TaskCode {
        instructions,
        start,
        finished: finished_of(task.variables.as_slice()),
    })
}

// The codes of tasks.
fn codes_of(alloc: Global, tasks: &[Task]) -> Result<Vec<TaskCode>, OutOfMemory>
    ensures { IfOk result (λ codes. map seen codes.items ≡ map program_of tasks.now) }
{
    let mut codes = Vec::new(alloc);
    for task in tasks {
        let code = code_of_task(alloc, task)?;
        let Ok(()) = codes.push(code) else {
            return Err(OutOfMemory);
        };
    }
    Ok(codes)
}

/// The code of a program whose cycle is 100 to 100,000 microseconds long. What each task's code
/// does is what its tree says (`StTask::next`).
pub fn compile(alloc: Global, program: &StProgram, cycle_us: u32) -> Result<StCode, OutOfMemory>
    requires { IsCycle cycle_us }
    ensures { IfOk result (λ c. c ≡ record {
      us = cycle_us;
      tasks = map program_of program.now.tasks.items;
    }) }
{
    let tasks = codes_of(alloc, program.tasks.as_slice())?;
    Ok(StCode { cycle_us, tasks })
}
