// A program: what each task of a machine does, one instruction after another.

ghost use Rattle.std.specs.Prelude.{◌≡◌, ◌<◌, [], length, slice_index_or};
ghost use Rattle.plc_program.specs.Programs.{IsProgram};

use plc_types::{Flag, Inputs};
use std::marker::Model;

/// The most instructions of a task.
pub const MOST_INSTRUCTIONS: usize = 10_000;

/// The most times that lines are repeated.
pub const MOST_TIMES: u32 = 1_000_000;

/// An instruction of a task.
#[derive(Clone, Copy, Debug, PartialEq, Eq)]
pub enum Instruction {
    /// A call of a block, by its number.
    Call { instance: u16, inputs: Inputs },
    /// Calls a block as it was last called, until the flag, aborted or error is true.
    Wait { instance: u16, flag: Flag },
    /// The lines up to `Again` this many times, 1 to 1,000,000.
    Repeat { count: u32 },
    Again,
}

/// A program that was read. Contracts see it as a list of instructions for each task.
#[derive(Drop)]
pub struct Program {
    pub(crate) tasks: Vec<Vec<Instruction>>,
}

impl Model for Program {
    ghost use Rattle.std.specs.Prelude.{List, map};
    ghost use Rattle.plc_program.specs.Programs.{IsProgram};
    ghost use Rattle.plc_program.specs.declared.program.Instruction.{Instruction};

    ghost Value = { List (List Instruction) };

    ghost view = { λ p. map (λ v. v.items) p.tasks.items };

    ghost invariant = { λ p. IsProgram (map (λ v. v.items) p.tasks.items) };
}

impl Program {
    /// How many tasks there are, 1 to 8.
    pub fn tasks(&self) -> u8
        ensures value { result ≡ length self.now }
        ensures program { IsProgram self.now }
    {
        self.tasks.len() as u8
    }

    /// The instructions of a task, in their order.
    pub fn lines(&self, task: u8) -> &[Instruction]
        requires { task < length self.now }
        ensures value { result.now ≡ slice_index_or self.now task [] }
        ensures program { IsProgram self.now }
    {
        self.tasks[task as usize].as_slice()
    }
}
