// What each note of the grammar's table does.

ghost use Rattle.std.specs.Prelude.{◌≡◌, OnOk};
ghost use Rattle.st_check.specs.Noted as spec;

use crate::checker::Checker;
use crate::known::ValueType;
use motion_numbers::OutOfMemory;
use st_grammar::Note;
use st_tree::{Part, Start};

impl Checker {
    /// Takes a note of a token in this line.
    #[tactic(auto, unfolding(crate::specs::Noted::noted))]
    pub fn note(&mut self, line: u64, note: Note) -> Result<(), OutOfMemory>
        ensures { OnOk result (self.new ≡ spec.noted line note self.old) }
    {
        match note {
            Note::Nothing => Ok(()),
            Note::Program => Ok(self.program(line)),
            Note::TaskName(name) => self.task_name(line, &name),
            Note::Declares(name) => Ok(self.declares(line, &name)),
            Note::Bool(value) => self.variable_declared(Start::Bool(value)),
            Note::Dint { negative, size } => self.dint(line, negative, size),
            Note::Block(kind) => Ok(self.block_declared(kind)),
            Note::Object(name) => self.object(line, &name),
            Note::Body => self.body(),
            Note::EndProgram => self.add(Part::TaskEnd),
            Note::End => Ok(self.text_end(line)),
            Note::Statement(name) => Ok(self.statement(line, &name)),
            Note::Sets => Ok(self.sets()),
            Note::Calls => Ok(self.calls()),
            Note::Executed => self.executed(),
            Note::Key(name) => Ok(self.key(line, &name)),
            Note::Mode(name) => self.mode(line, &name),
            Note::Master(name) => self.master(line, &name),
            Note::Given => self.given(),
            Note::SetEnd => self.set_end(),
            Note::CallEnd => self.call_end(),
            Note::If | Note::Case => Ok(self.branches(line)),
            Note::Then => self.then(),
            Note::Of => self.of(),
            Note::Branch { negative, size } => self.branch(line, negative, size),
            Note::Else => self.add(Part::Else),
            Note::NoElse { case } => self.no_else(case),
            Note::Closes { case } => self.end_of(case),
            Note::Number(size) => self.number(line, size),
            Note::Truth(value) => self.truth(value),
            Note::Name(name) => Ok(self.name_used(line, &name)),
            Note::Variable => self.variable(),
            Note::Flag(flag) => self.flag(flag),
            Note::Opens => Ok(self.opens(line)),
            Note::ClosesParenthesis => Ok(self.closes()),
            Note::Minus => self.change(ValueType::Dint, Part::Negative),
            Note::Not => self.change(ValueType::Bool, Part::Not),
            Note::Join(operator) => self.join(operator),
        }
    }
}
