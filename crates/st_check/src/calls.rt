// What the parts of calls do.

ghost use Rattle.std.specs.Prelude.{◌≡◌, OnOk, false};
ghost use Rattle.st_check.specs.Checked as checked;
ghost use Rattle.st_check.specs.Statements as spec;

use crate::checker::Checker;
use crate::keys::{key_of_slot, rank_of, slot_of};
use crate::known::{Call, Callee, Slot, Sort, ValueType};
use machine_words::axis_at;
use motion_numbers::OutOfMemory;
use plc_types::{Input, Name, mode_named};
use st_tree::Part;

// The block of a name.
fn callee_of(sort: Option<Sort>) -> Option<Callee>
    ensures { result ≡ spec.callee_of sort }
{
    match sort {
        Some(Sort::Block(callee)) => Some(callee),
        _ => None,
    }
}

// The number of a block.
fn number_of(callee: Option<Callee>) -> u16
    ensures { result ≡ spec.number_of callee }
{
    match callee {
        Some(callee) => callee.number,
        None => 0,
    }
}

// Whether a key is that of a mode.
fn gives_mode(slot: Option<Slot>) -> bool
    ensures { result ≡ spec.gives Input.Mode slot }
{
    matches!(
        slot,
        Some(Slot {
            input: Input::Mode,
            ..
        })
    )
}

// Whether it is that of a master.
fn gives_master(slot: Option<Slot>) -> bool
    ensures { result ≡ spec.gives Input.Master slot }
{
    matches!(
        slot,
        Some(Slot {
            input: Input::Master,
            ..
        })
    )
}

impl Checker {
    /// `(` after a name.
    #[tactic(auto, unfolding(crate::specs::Statements::calls))]
    pub fn calls(&mut self)
        ensures { self.new ≡ spec.calls self.old }
    {
        let line = self.statement.line;
        let callee = callee_of(self.statement.target);
        self.need_name(callee.is_some(), line);
        self.call = Call {
            callee,
            line,
            next: 0,
            slot: None,
        };
    }

    /// The expression for `execute` ends.
    #[tactic(auto, unfolding(crate::specs::Statements::executed))]
    pub fn executed(&mut self) -> Result<(), OutOfMemory>
        ensures { OnOk result (self.new ≡ spec.executed self.old) }
    {
        let callee = self.call.callee;
        let instance = number_of(callee);
        let line = self.statement.line;
        self.need_name(callee.is_some(), line);
        self.take(ValueType::Bool);
        self.add(Part::Execute(instance))
    }

    // A key that the block takes.
    fn with_slot(&mut self, line: u64, slot: Slot)
        ensures { self.new ≡ spec.with_slot line slot self.old }
    {
        let rank = rank_of(slot) as u16;
        let next = self.call.next;
        let call = Call {
            callee: self.call.callee,
            line,
            next: next.max(rank + 1),
            slot: Some(slot),
        };
        self.need(next <= rank, line, 5);
        self.call = call;
    }

    // A key that it doesn't take.
    fn without_slot(&mut self, line: u64)
        ensures { self.new ≡ spec.without_slot line self.old }
    {
        let call = Call {
            line,
            slot: None,
            ..self.call
        };
        self.need(false, line, 5);
        self.call = call;
    }

    /// A key of a call.
    #[tactic(auto, unfolding(crate::specs::Statements::key))]
    pub fn key(&mut self, line: u64, word: &Name)
        ensures { self.new ≡ spec.key line word.now self.old }
    {
        let Some(callee) = self.call.callee else {
            self.call.line = line;
            self.call.slot = None;
            return;
        };
        match slot_of(callee, word.bytes()) {
            Some(slot) => self.with_slot(line, slot),
            None => self.without_slot(line),
        }
    }

    /// The word of a mode.
    #[tactic(auto, unfolding(crate::specs::Statements::mode))]
    pub fn mode(&mut self, line: u64, word: &Name) -> Result<(), OutOfMemory>
        ensures { OnOk result (self.new ≡ spec.mode line word.now self.old) }
    {
        if !gives_mode(self.call.slot) {
            return self.not_taken();
        }
        match mode_named(word.bytes()) {
            Some(mode) => self.add(Part::Mode(mode)),
            None => self.lost(line),
        }
    }

    /// The name of a master.
    #[tactic(auto, unfolding(crate::specs::Statements::master))]
    pub fn master(&mut self, line: u64, word: &Name) -> Result<(), OutOfMemory>
        ensures { OnOk result (self.new ≡ spec.master line word.now self.old) }
    {
        if !gives_master(self.call.slot) {
            return self.not_taken();
        }
        match axis_at(&self.machine, word.bytes()) {
            Some(axis) => self.add(Part::Master(axis)),
            None => self.lost(line),
        }
    }

    // The last key is none that the block takes.
    fn not_taken(&mut self) -> Result<(), OutOfMemory>
        ensures { OnOk result (self.new ≡ spec.not_taken self.old) }
    {
        let line = self.call.line;
        self.break_rule(line, 5);
        Ok(())
    }

    // A name is wrong in this line.
    fn lost(&mut self, line: u64) -> Result<(), OutOfMemory>
        ensures { OnOk result (self.new ≡ checked.lost_unless false line self.old) }
    {
        self.need_name(false, line);
        Ok(())
    }

    /// The expression of a key ends.
    #[tactic(auto, unfolding(crate::specs::Statements::given))]
    pub fn given(&mut self) -> Result<(), OutOfMemory>
        ensures { OnOk result (self.new ≡ spec.given self.old) }
    {
        let Some(slot) = self.call.slot else {
            self.pop_type();
            return self.not_taken();
        };
        self.take(ValueType::Dint);
        match key_of_slot(slot) {
            Some(key) => self.add(Part::Given(key)),
            None => self.not_taken(),
        }
    }

    /// A call ends.
    #[tactic(auto, unfolding(crate::specs::Statements::call_end))]
    pub fn call_end(&mut self) -> Result<(), OutOfMemory>
        ensures { OnOk result (self.new ≡ spec.call_end self.old) }
    {
        self.typed();
        self.add(Part::CallEnd)
    }
}
