// What is known of a text as far as it was read, and the first rule that it broke.

ghost use Rattle.std.specs.Prelude.{◌≡◌, OnOk};
ghost use Rattle.line_text.specs.declared.reader.LineRefused.{LineRefused};
ghost use Rattle.st_check.specs.Checked as spec;
ghost use Rattle.st_check.specs.Names as names;
ghost use Rattle.st_check.specs.Reading as reading;
ghost use Rattle.st_check.specs.Typed as types;

use crate::index::{KnownNames, UsedNames};
use crate::known::{Call, Declaration, Sort, Statement, Used, ValueType};
use crate::pile::{Pile, push};
use line_text::LineRefused;
use motion_history::Builder;
use motion_numbers::OutOfMemory;
use plc_types::Name;
use st_tokens::Token;
use st_tree::Part;
use std::marker::Model;

/// The most tokens of a text, besides its end.
const MOST_TOKENS: u32 = 1_000_000;

/// What is known of a text as far as it was read. Contracts see it as a `Checked`.
#[derive(Drop)]
pub struct Checker {
    pub(crate) tokens: u32,
    pub(crate) machine: Builder,
    pub(crate) used: UsedNames,
    pub(crate) known: KnownNames,
    pub(crate) variables: u32,
    pub(crate) blocks_before: u16,
    pub(crate) types: Pile<ValueType>,
    pub(crate) statements: u32,
    pub(crate) nested: u8,
    pub(crate) declaration: Declaration,
    pub(crate) statement: Statement,
    pub(crate) call: Call,
    pub(crate) name: Used,
    pub(crate) fault: Option<LineRefused>,
    pub(crate) names: Vec<Name>,
    pub(crate) parts: Vec<Part>,
}

impl Model for Checker {
    ghost use Rattle.st_check.specs.Checked.{Checked};

    ghost Value = { Checked };

    ghost view = { λ c. record {
      tokens = c.tokens;
      setup = c.machine;
      used = c.used;
      known = c.known;
      variables = c.variables;
      blocks_before = c.blocks_before;
      types = c.types;
      statements = c.statements;
      nested = c.nested;
      declaration = c.declaration;
      statement = c.statement;
      call = c.call;
      name = c.name;
      fault = c.fault;
      names = c.names.items;
      parts = c.parts.items;
    } };
}

// The first of a fault that was found and one at this place.
#[tactic(auto, unfolding(crate::specs::Checked::least))]
fn least(fault: Option<LineRefused>, line: u64, rule: u8) -> LineRefused
    ensures { result ≡ spec.least fault line rule }
{
    match fault {
        None => LineRefused { line, rule },
        Some(found) => {
            if line < found.line || (line == found.line && rule < found.rule) {
                LineRefused { line, rule }
            } else {
                found
            }
        }
    }
}

impl Checker {
    /// What a name names where the reader stands.
    #[tactic(auto, unfolding(crate::specs::Names::sort_of))]
    pub fn sort_of(&self, name: &[u8]) -> Option<Sort>
        ensures { result ≡ names.sort_of self.now name.now }
    {
        self.known.sort_of(name)
    }

    /// Whether a name is used already.
    #[tactic(auto, unfolding(crate::specs::Names::is_taken, motion_history::specs::Faults::is_used))]
    pub fn is_taken(&self, name: &Name) -> bool
        ensures { result ≡ names.is_taken self.now name.now }
    {
        self.machine.name_fault(name.bytes()).is_some()
            || self.used.has(name.bytes())
            || self.known.has(name.bytes())
    }

    /// Whether a token is one too many.
    pub fn is_too_many(&self, token: &Token) -> bool
        ensures { result ≡ reading.is_too_many self.now token.now }
    {
        match token {
            Token::End => false,
            _ => MOST_TOKENS <= self.tokens,
        }
    }

    /// A token is counted.
    pub fn count(&mut self)
        ensures { self.new ≡ reading.counted self.old }
    {
        self.tokens = self.tokens.saturating_add(1);
    }

    /// The rule is broken in this line.
    pub fn break_rule(&mut self, line: u64, rule: u8)
        ensures { self.new ≡ spec.broken line rule self.old }
    {
        self.fault = Some(least(self.fault, line, rule));
    }

    /// The rule is broken in this line, unless this holds.
    #[tactic(auto, unfolding(crate::specs::Checked::broken_unless))]
    pub fn need(&mut self, holds: bool, line: u64, rule: u8)
        ensures { self.new ≡ spec.broken_unless holds line rule self.old }
    {
        if !holds {
            self.fault = Some(least(self.fault, line, rule));
        }
    }

    /// A name is wrong in this line, unless this holds.
    #[tactic(auto, unfolding(crate::specs::Checked::lost_unless))]
    pub fn need_name(&mut self, holds: bool, line: u64)
        ensures { self.new ≡ spec.lost_unless holds line self.old }
    {
        if !holds {
            self.fault = Some(least(self.fault, line, 3));
            self.statement.is_lost = true;
        }
    }

    /// A type of the statement is wrong, unless this holds.
    #[tactic(auto, unfolding(crate::specs::Checked::mistyped_unless))]
    pub fn need_type(&mut self, holds: bool)
        ensures { self.new ≡ spec.mistyped_unless holds self.old }
    {
        if !holds {
            self.statement.is_mistyped = true;
        }
    }

    /// Adds a part.
    pub fn add(&mut self, part: Part) -> Result<(), OutOfMemory>
        ensures { OnOk result (self.new ≡ spec.with_part part self.old) }
    {
        push(&mut self.parts, part)
    }

    /// The type of the last operand, which is taken off.
    pub fn pop_type(&mut self) -> ValueType
        ensures value { result ≡ types.last_of self.old.types }
        ensures rest { self.new ≡ record self.old { types = types.rest_of self.old.types } }
    {
        let Some(found) = self.types.pop() else {
            return ValueType::Dint;
        };
        found
    }
}
