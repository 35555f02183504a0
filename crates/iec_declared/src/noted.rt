// What each part of the tree does that declares something or is a constant.

ghost use Rattle.std.specs.Prelude.{◌≡◌, OnOk};
ghost use Rattle.iec_declared.specs.Noted as spec;

use crate::declared::Declarations;
use crate::known::{Expected, Shape, Used};
use iec_tree::{Node, Part};
use motion_numbers::OutOfMemory;

impl Declarations {
    // A name by what is expected.
    fn name(&mut self, used: &Used) -> Result<(), OutOfMemory>
        ensures { OnOk result (self.new ≡ spec.named self.old.expected used.now self.old) }
    {
        match self.expected {
            Expected::Enumeration => self.enumeration_named(used),
            Expected::Word => {
                self.name = Some(*used);
                self.expected = Expected::Known;
                Ok(())
            }
            Expected::Program => self.program_named(used),
            Expected::Known => {
                self.name = Some(*used);
                Ok(())
            }
        }
    }

    // A word by what is expected.
    fn word(&mut self, used: &Used) -> Result<(), OutOfMemory>
        ensures { OnOk result (self.new ≡ spec.worded self.old.expected used.now self.old) }
    {
        match self.expected {
            Expected::Word => self.enumeration_word(used),
            _ => {
                self.word = Some(*used);
                Ok(())
            }
        }
    }

    // What a part in this line does.
    fn note_so(&mut self, part: &Part, line: u64) -> Result<(), OutOfMemory>
        ensures { OnOk result (self.new ≡ spec.noted_so part.now line self.old) }
    {
        match *part {
            Part::Name(name) => self.name(&Used { name, line }),
            Part::Word(name) => self.word(&Used { name, line }),
            Part::Number { negative, number } => self.number(negative, number, line),
            Part::Truth(truth) => self.truth(truth, line),
            Part::Constant => self.constant(),
            Part::ConstantWord => self.constant_word(),
            Part::Negative => self.negative(),
            Part::Enumeration => Ok(self.enumeration(line)),
            Part::Numbered => Ok(self.numbered()),
            Part::EnumerationEnd => self.enumeration_end(),
            Part::Section(section) => Ok(self.in_section(section)),
            Part::Program => Ok(self.program()),
            Part::Declares(name) => self.declares(&Used { name, line }),
            Part::Array => Ok(self.array()),
            Part::Elementary(of) => Ok(self.shaped(Shape::Variable(of))),
            Part::Standard(standard) => Ok(self.shaped(Shape::Standard(standard))),
            Part::Motion(motion) => Ok(self.shaped(Shape::Motion(motion))),
            Part::Named(name) => Ok(self.named(&name, line)),
            Part::Object(name) => Ok(self.acts_on(&name, line)),
            Part::Initial => Ok(self.initial()),
            Part::List => self.list(),
            Part::ListEnd => self.list_end(),
            Part::DeclarationEnd => self.declaration_end(),
            _ => Ok(()),
        }
    }

    /// Takes a node, unless reading has stopped.
    #[tactic(auto, unfolding(crate::specs::Noted::noted))]
    pub fn note(&mut self, node: &Node) -> Result<(), OutOfMemory>
        ensures { OnOk result (self.new ≡ spec.noted node.now.part node.now.line self.old) }
    {
        if self.stopped {
            return Ok(());
        }
        self.note_so(&node.part, node.line)
    }
}
