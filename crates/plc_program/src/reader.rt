// A program as far as it was read, and how its lines lead it on.

ghost use Rattle.std.specs.Prelude.{◌≡◌, ℕ, Result};
ghost use Rattle.line_text.specs.Reading.{Gives, Takes};
ghost use Rattle.line_text.specs.Texts.{texts};
ghost use Rattle.machine_words.specs.Units.{IsCycle};
ghost use Rattle.plc_program.specs.Calls as calls;
ghost use Rattle.plc_program.specs.Lines as lines;
ghost use Rattle.plc_program.specs.Reading as spec;
ghost use Rattle.plc_program.specs.SoFar as so_far;

use crate::call::call_of;
use crate::form::{Form, form_of, is_counted};
use crate::item::add_block;
use crate::program::{Instruction, MOST_INSTRUCTIONS};
use crate::version::version_of;
use crate::wait::{repeat_of, wait_of};
use line_text::{LineFault, LineReader, broken_unless, required};
use machine_words::{NO_VERSION, OUT_OF_PLACE, TOO_MANY, WRONG_COUNT, add_task};
use motion_history::{Builder, TraceVersion};
use std::alloc::Global;
use std::marker::Model;
use std::mem;

/// A program as far as it was read. Contracts see it as a `SoFar`.
#[derive(Drop)]
pub struct ProgramReader {
    pub(crate) alloc: Global,
    pub(crate) configured: TraceVersion,
    pub(crate) cycle_us: u32,
    pub(crate) begun: bool,
    pub(crate) version: TraceVersion,
    pub(crate) machine: Builder,
    pub(crate) before: Vec<Vec<Instruction>>,
    pub(crate) lines: Vec<Instruction>,
    pub(crate) repeating: bool,
}

impl Model for ProgramReader {
    ghost use Rattle.std.specs.Prelude.{map};
    ghost use Rattle.machine_words.specs.Units.{IsCycle};
    ghost use Rattle.plc_program.specs.SoFar.{SoFar};

    ghost Value = { SoFar };

    ghost view = { λ r. record {
      machine = r.configured;
      cycle_us = r.cycle_us;
      begun = r.begun;
      version = r.version;
      setup = r.machine;
      before = map (λ v. v.items) r.before.items;
      lines = r.lines.items;
      repeating = r.repeating;
    } };

    ghost invariant = { λ r. IsCycle r.cycle_us };
}

impl LineReader for ProgramReader {
    ghost use Rattle.plc_program.specs.Reading.{meaning};

    ghost meaning = { meaning };

    #[tactic(auto, unfolding(crate::specs::Reading::meaning))]
    fn read_line(&mut self, words: &[&[u8]]) -> Result<(), LineFault> {
        if self.begun {
            self.read_later(words)
        } else {
            self.read_version(words)
        }
    }
}

impl ProgramReader {
    /// The length of a cycle in microseconds.
    pub fn cycle_us(&self) -> u32
        ensures value { result ≡ self.now.cycle_us }
        ensures cycle { IsCycle result }
    {
        self.cycle_us
    }

    /// The number of the task that is under way.
    pub fn task(&self) -> u8
        ensures { result ≡ so_far.task_of self.now }
    {
        self.machine.tasks().len().saturating_sub(1) as u8
    }

    // Takes the first line.
    #[tactic(auto, unfolding(crate::specs::Reading::version_meaning))]
    fn read_version(&mut self, words: &[&[u8]]) -> Result<(), LineFault>
        ensures { Takes (spec.version_meaning self.old (texts words.now)) self.new result }
    {
        self.version = required(version_of(self.configured, words), NO_VERSION)?;
        self.begun = true;
        Ok(())
    }

    // Takes a line after the first.
    #[tactic(auto, unfolding(crate::specs::Reading::later_meaning))]
    fn read_later(&mut self, words: &[&[u8]]) -> Result<(), LineFault>
        ensures { Takes (spec.later_meaning self.old (texts words.now)) self.new result }
    {
        let [first, words @ ..] = words else {
            return Ok(());
        };
        let form = self.form_in(first, words)?;
        self.read_words(form, words)
    }

    // The form of a line where it may stand.
    #[tactic(auto, unfolding(crate::specs::Reading::form_in))]
    fn form_in(&self, first: &[u8], words: &[&[u8]]) -> Result<Form, LineFault>
        ensures { Gives (λ f. f) (spec.form_in self.now first.now (texts words.now)) result }
    {
        let Some(form) = form_of(first) else {
            return Err(LineFault::Rule(OUT_OF_PLACE));
        };
        broken_unless(self.may_stand(form), OUT_OF_PLACE)?;
        broken_unless(is_counted(form, words.len()), WRONG_COUNT)?;
        Ok(form)
    }

    // Whether a task is under way.
    fn has_task(&self) -> bool
        ensures { result ≡ so_far.has_task self.now }
    {
        1 <= self.machine.tasks().len()
    }

    // Whether a line of the form may stand here.
    #[tactic(auto, unfolding(crate::specs::Reading::may_stand))]
    fn may_stand(&self, form: Form) -> bool
        ensures { result ≡ spec.may_stand self.now form }
    {
        match form {
            Form::Task => !self.repeating,
            Form::Block => self.has_task() && self.lines.is_empty(),
            Form::Call | Form::Wait => self.has_task(),
            Form::Repeat => self.has_task() && !self.repeating,
            Form::Again => self.has_task() && self.repeating,
        }
    }

    // Takes the words after the first.
    #[tactic(auto, unfolding(crate::specs::Reading::words_meaning))]
    fn read_words(&mut self, form: Form, words: &[&[u8]]) -> Result<(), LineFault>
        ensures { Takes (spec.words_meaning self.old form (texts words.now)) self.new result }
    {
        match form {
            Form::Task => self.read_task(words),
            Form::Block => self.read_block(words),
            Form::Call => self.read_call(words),
            Form::Wait => self.read_wait(words),
            Form::Repeat => self.read_repeat(words),
            Form::Again => self.push(Instruction::Again),
        }
    }

    // Takes a line of a task.
    #[tactic(auto, unfolding(crate::specs::Reading::tasks_meaning))]
    fn read_task(&mut self, words: &[&[u8]]) -> Result<(), LineFault>
        ensures { Takes (spec.tasks_meaning self.old (texts words.now)) self.new result }
    {
        let has_task = self.has_task();
        add_task(&mut self.machine, words)?;
        let lines = mem::replace(&mut self.lines, Vec::new(self.alloc));
        if has_task {
            let Ok(()) = self.before.push(lines) else {
                return Err(LineFault::OutOfMemory);
            };
        }
        Ok(())
    }

    // Takes a line of a block.
    #[tactic(auto, unfolding(crate::specs::Reading::blocks_meaning))]
    fn read_block(&mut self, words: &[&[u8]]) -> Result<(), LineFault>
        ensures { Takes (spec.blocks_meaning self.old (texts words.now)) self.new result }
    {
        let task = self.task();
        add_block(self.version, &mut self.machine, task, words)
    }

    // Takes a line of a call.
    fn read_call(&mut self, words: &[&[u8]]) -> Result<(), LineFault>
        ensures { Takes (spec.with_line self.old (calls.call_meaning self.old (texts words.now)))
            self.new result }
    {
        let line = call_of(self, words)?;
        self.push(line)
    }

    // Takes a line of a wait.
    fn read_wait(&mut self, words: &[&[u8]]) -> Result<(), LineFault>
        ensures { Takes (spec.with_line self.old (lines.wait_meaning self.old (texts words.now)))
            self.new result }
    {
        let line = wait_of(self, words)?;
        self.push(line)
    }

    // Takes a line of a repeat.
    fn read_repeat(&mut self, words: &[&[u8]]) -> Result<(), LineFault>
        ensures { Takes (spec.with_line self.old (lines.repeat_meaning (texts words.now)))
            self.new result }
    {
        let line = repeat_of(words)?;
        self.push(line)
    }

    // Takes an instruction.
    #[tactic(auto, unfolding(crate::specs::Reading::line_added))]
    fn push(&mut self, line: Instruction) -> Result<(), LineFault>
        ensures { Takes (spec.line_added self.old line) self.new result }
    {
        broken_unless(self.lines.len() < MOST_INSTRUCTIONS, TOO_MANY)?;
        let Ok(()) = self.lines.push(line) else {
            return Err(LineFault::OutOfMemory);
        };
        self.repeating = is_repeating(self.repeating, &line);
        Ok(())
    }
}

// Whether a task stands inside a repeat after a line.
fn is_repeating(inside: bool, line: &Instruction) -> bool
    ensures { result ≡ spec.is_repeating inside line.now }
{
    match line {
        Instruction::Call { .. } | Instruction::Wait { .. } => inside,
        Instruction::Repeat { .. } => true,
        Instruction::Again => false,
    }
}
