// What the parts of enumerations do.

ghost use Rattle.std.specs.Prelude.{◌≡◌, OnOk};
ghost use Rattle.iec_declared.specs.Enumerations as spec;

use crate::declared::Declarations;
use crate::known::{Enumeration, Expected, Used};
use iec_names::Sort;
use iec_operands::{Operand, type_of, value_of};
use iec_tree::Elementary;
use iec_values::{Change, changed, widens};
use motion_numbers::OutOfMemory;

// The number that stands with a word, else the next.
fn number_by(number: Option<i64>, next: i64) -> i64
    ensures { result ≡ spec.number_by number next }
{
    match number {
        Some(number) => number,
        None => { if next <= 32_767 { next } else { 0 } }
    }
}

// Whether there is a number for a word.
fn has_number(number: Option<i64>, next: i64) -> bool
    ensures { result ≡ spec.has_number number next }
{
    match number {
        Some(_) => true,
        None => next <= 32_767,
    }
}

// The number after one.
#[tactic(auto, unfolding(crate::specs::Enumerations::following))]
fn following(number: i64) -> i64
    ensures { result ≡ spec.following number }
{
    if number < 32_767 { number + 1 } else { 32_768 }
}

// The number of a word, which is an INT.
fn number_in(operand: Operand) -> i64
    ensures { result ≡ spec.number_in operand }
{
    if widens(type_of(operand), Elementary::Int) {
        changed(Change::ToInt, value_of(operand))
    } else {
        0
    }
}

impl Declarations {
    /// `TYPE`: its name follows.
    #[tactic(auto, unfolding(crate::specs::Enumerations::enumeration))]
    pub fn enumeration(&mut self, line: u64)
        ensures { self.new ≡ spec.enumeration line self.old }
    {
        self.begin(line);
        self.expected = Expected::Enumeration;
    }

    /// An enumeration of this name, which is a new one.
    #[tactic(auto, unfolding(crate::specs::Enumerations::enumeration_named))]
    pub fn enumeration_named(&mut self, used: &Used) -> Result<(), OutOfMemory>
        ensures { OnOk result (self.new ≡ spec.enumeration_named used.now self.old) }
    {
        let is_free = self.names.is_free_globally(&used.name);
        let sort = Sort::Enumeration(self.counts.enumerations);
        self.names.define_globally(&used.name, sort)?;
        self.counts.enumerations = self.counts.enumerations.saturating_add(1);
        self.enumeration = Enumeration {
            word: None,
            number: None,
            next: 0,
        };
        self.expected = Expected::Word;
        self.need_name(is_free, used.line);
        Ok(())
    }

    // A word of the enumeration, and its number.
    fn with_word(&mut self, used: &Used, enumeration: &Enumeration) -> Result<(), OutOfMemory>
        ensures { OnOk result (self.new ≡ spec.with_word used.now enumeration.now self.old) }
    {
        let fits = has_number(enumeration.number, enumeration.next);
        let value = number_by(enumeration.number, enumeration.next);
        let of = self.counts.enumerations.saturating_sub(1);
        self.names
            .define_globally(&used.name, Sort::Word { of, value })?;
        self.enumeration = Enumeration {
            word: None,
            number: None,
            next: following(value),
        };
        self.need(fits, used.line, 5);
        Ok(())
    }

    // The word that is under way ends, where there is one.
    #[tactic(auto, unfolding(crate::specs::Enumerations::settled))]
    fn settle(&mut self) -> Result<(), OutOfMemory>
        ensures { OnOk result (self.new ≡ spec.settled self.old) }
    {
        match self.enumeration.word {
            Some(used) => {
                let enumeration = self.enumeration;
                self.with_word(&used, &enumeration)
            }
            None => Ok(()),
        }
    }

    // A word begins, which is a new one.
    fn begin_word(&mut self, used: &Used)
        ensures { self.new ≡ spec.begins_word used.now self.old }
    {
        let is_free = self.names.is_free_globally(&used.name);
        self.enumeration.word = Some(*used);
        self.enumeration.number = None;
        self.need_name(is_free, used.line);
    }

    /// A word, which is a new one.
    #[tactic(auto, unfolding(crate::specs::Enumerations::enumeration_word))]
    pub fn enumeration_word(&mut self, used: &Used) -> Result<(), OutOfMemory>
        ensures { OnOk result (self.new ≡ spec.enumeration_word used.now self.old) }
    {
        self.settle()?;
        self.begin_word(used);
        Ok(())
    }

    /// The number of the word in front.
    #[tactic(auto, unfolding(crate::specs::Enumerations::numbered))]
    pub fn numbered(&mut self)
        ensures { self.new ≡ spec.numbered self.old }
    {
        let operand = self.operands.give(Elementary::Int);
        self.enumeration.number = Some(number_in(operand));
        self.expected = Expected::Word;
    }

    /// `END_TYPE`
    #[tactic(auto, unfolding(crate::specs::Enumerations::enumeration_end))]
    pub fn enumeration_end(&mut self) -> Result<(), OutOfMemory>
        ensures { OnOk result (self.new ≡ spec.enumeration_end self.old) }
    {
        self.settle()?;
        self.expected = Expected::Known;
        self.end();
        Ok(())
    }
}
