// Code that is made from its end on, so that each jump knows how much it passes.

ghost use Rattle.std.specs.Prelude.{◌≡◌, ◌∷◌, [], OnOk, length};

use crate::instruction::{Act, Instruction, Use};
use motion_numbers::OutOfMemory;
use std::alloc::Global;
use std::marker::Model;

/// Code whose last instructions are there: each new one stands before them. Contracts see it as the
/// list of its instructions.
#[derive(Drop)]
pub struct CodeFromEnd {
    list: Vec<Instruction>,
}

impl Model for CodeFromEnd {
    ghost use Rattle.std.specs.Prelude.{List, reverse};
    ghost use Rattle.st_exec.specs.declared.instruction.Instruction.{Instruction};

    ghost Value = { List Instruction };

    ghost view = { λ c. reverse c.list.items };
}

impl CodeFromEnd {
    /// No code.
    pub fn new(alloc: Global) -> CodeFromEnd
        ensures { result ≡ [] }
    {
        CodeFromEnd {
            list: Vec::new(alloc),
        }
    }

    /// How many instructions are there.
    pub fn len(&self) -> usize
        ensures { result ≡ length self.now }
    {
        self.list.len()
    }

    /// One instruction before those that are there.
    pub fn put(&mut self, instruction: Instruction) -> Result<(), OutOfMemory>
        ensures { OnOk result (self.new ≡ instruction ∷ self.old) }
    {
        let Ok(()) = self.list.push(instruction) else {
            return Err(OutOfMemory);
        };
        Ok(())
    }

    /// One act before those that are there.
    pub fn put_act(&mut self, act: Act) -> Result<(), OutOfMemory>
        ensures { OnOk result (self.new ≡ Instruction.Do act ∷ self.old) }
    {
        self.put(Instruction::Do(act))
    }

    /// One use of a value before those that are there.
    pub fn put_use(&mut self, how: Use) -> Result<(), OutOfMemory>
        ensures { OnOk result (self.new ≡ Instruction.Do (Act.Take how) ∷ self.old) }
    {
        self.put_act(Act::Take(how))
    }

    /// The instructions, from the first on.
    pub fn finish(self) -> Vec<Instruction>
        ensures { result.items ≡ self }
    {
        let mut list = self.list;
        list.reverse();
        list
    }
}
