// What the parts of statements do but calls.

ghost use Rattle.std.specs.Prelude.{◌≡◌, OnOk};
ghost use Rattle.st_check.specs.Statements as spec;

use crate::checker::Checker;
use crate::declarations::{MOST, signed};
use crate::known::{Sort, Statement, ValueType};
use motion_numbers::OutOfMemory;
use plc_types::Name;
use st_tree::Part;

/// The most statements of a text.
const MOST_STATEMENTS: u32 = 10000;

// Whether a name is a variable's.
fn is_variable(sort: Option<Sort>) -> bool
    ensures { result ≡ spec.is_variable sort }
{
    matches!(sort, Some(Sort::Variable { .. }))
}

impl Checker {
    // A statement begins.
    #[tactic(auto, unfolding(crate::specs::Statements::begins, crate::specs::Checked::broken_unless))]
    fn begin(&mut self, line: u64, target: Option<Sort>)
        ensures { self.new ≡ spec.begins line target self.old }
    {
        let fits = self.statements < MOST_STATEMENTS;
        if fits {
            self.statements += 1;
        }
        self.need(fits, line, 6);
        self.statement = Statement {
            line,
            is_lost: false,
            is_mistyped: false,
            target,
        };
    }

    /// A statement begins with a name.
    #[tactic(auto, unfolding(crate::specs::Statements::statement))]
    pub fn statement(&mut self, line: u64, name: &Name)
        ensures { self.new ≡ spec.statement line name.now self.old }
    {
        let target = self.sort_of(name.bytes());
        self.begin(line, target);
        self.need_name(target.is_some(), line);
    }

    /// A statement begins with `IF` or `CASE`.
    #[tactic(auto, unfolding(crate::specs::Statements::branches))]
    pub fn branches(&mut self, line: u64)
        ensures { self.new ≡ spec.branches line self.old }
    {
        self.begin(line, None);
        self.opens(line);
    }

    /// A wrong type of the statement is reported.
    #[tactic(auto, unfolding(crate::specs::Statements::typed))]
    pub fn typed(&mut self)
        ensures { self.new ≡ spec.typed self.old }
    {
        let line = self.statement.line;
        let fits = !self.statement.is_mistyped || self.statement.is_lost;
        self.need(fits, line, 4);
    }

    /// `:=` after a name.
    #[tactic(auto, unfolding(crate::specs::Statements::sets))]
    pub fn sets(&mut self)
        ensures { self.new ≡ spec.sets self.old }
    {
        let line = self.statement.line;
        let fits = is_variable(self.statement.target);
        self.need_name(fits, line);
    }

    /// The value of a variable ends.
    #[tactic(auto, unfolding(crate::specs::Statements::set_end))]
    pub fn set_end(&mut self) -> Result<(), OutOfMemory>
        ensures { OnOk result (self.new ≡ spec.set_end self.old) }
    {
        if let Some(Sort::Variable { number, of }) = self.statement.target {
            self.take(of);
            self.typed();
            return self.add(Part::Set(number));
        }
        let line = self.statement.line;
        self.need_name(false, line);
        self.take(ValueType::Dint);
        self.typed();
        Ok(())
    }

    /// The condition of an `IF` ends.
    #[tactic(auto, unfolding(crate::specs::Statements::then_))]
    pub fn then(&mut self) -> Result<(), OutOfMemory>
        ensures { OnOk result (self.new ≡ spec.then_ self.old) }
    {
        self.take(ValueType::Bool);
        self.typed();
        self.add(Part::If)
    }

    /// The selector of a `CASE` ends.
    #[tactic(auto, unfolding(crate::specs::Statements::of_))]
    pub fn of(&mut self) -> Result<(), OutOfMemory>
        ensures { OnOk result (self.new ≡ spec.of_ self.old) }
    {
        self.take(ValueType::Dint);
        self.typed();
        self.add(Part::Case)
    }

    /// A branch begins with a number.
    #[tactic(auto, unfolding(crate::specs::Statements::branch))]
    pub fn branch(&mut self, line: u64, negative: bool, size: u32) -> Result<(), OutOfMemory>
        ensures { OnOk result (self.new ≡ spec.branch line negative size self.old) }
    {
        self.need(size <= MOST, line, 5);
        self.add(Part::Branch(signed(negative, size)))
    }

    /// An `IF` or a `CASE` closes.
    #[tactic(auto, unfolding(crate::specs::Statements::end_of))]
    pub fn end_of(&mut self, case: bool) -> Result<(), OutOfMemory>
        ensures { OnOk result (self.new ≡ spec.end_of case self.old) }
    {
        self.closes();
        if case {
            self.add(Part::EndCase)
        } else {
            self.add(Part::EndIf)
        }
    }

    /// An `IF` or a `CASE` closes that has no `ELSE`.
    #[tactic(auto, unfolding(crate::specs::Statements::no_else))]
    pub fn no_else(&mut self, case: bool) -> Result<(), OutOfMemory>
        ensures { OnOk result (self.new ≡ spec.no_else case self.old) }
    {
        self.add(Part::Else)?;
        self.end_of(case)
    }
}
