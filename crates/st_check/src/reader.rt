// A reader, and how tokens lead it on.

ghost use Rattle.std.specs.Prelude.{◌≡◌, ◌++◌, ◌∷◌, OnOk, false};
ghost use Rattle.st_grammar.specs.declared.item.Item.{Item};
ghost use Rattle.st_check.specs.Noted.{noted};
ghost use Rattle.st_check.specs.Reading as spec;

use crate::checker::Checker;
use crate::index::{KnownNames, UsedNames};
use crate::known::{Call, Declaration, Statement, Used};
use crate::pile::Pile;
use motion_history::Builder;
use motion_numbers::OutOfMemory;
use st_grammar::{Item, Note, Row, row_of};
use st_tokens::Token;
use std::alloc::Global;
use std::marker::Model;

/// A text as far as it was read. Contracts see it as a `Stand`.
#[derive(Drop)]
pub struct Reader {
    pub(crate) expected: Pile<Item>,
    pub(crate) checker: Checker,
    pub(crate) stopped: bool,
}

impl Model for Reader {
    ghost use Rattle.st_check.specs.Reading.{Stand};

    ghost Value = { Stand };

    ghost view = { λ r. record { expected = r.expected; checked = r.checker; stopped = r.stopped } };
}

// What is known before the first token.
#[tactic(auto, unfolding(crate::specs::Reading::opening_checked))]
fn opening_checker(alloc: Global, machine: Builder) -> Checker
    ensures { result ≡ spec.opening_checked machine }
{
    Checker {
        tokens: 0,
        machine,
        used: UsedNames::new(alloc),
        known: KnownNames::new(alloc),
        variables: 0,
        blocks_before: 0,
        types: Pile::new(alloc),
        statements: 0,
        nested: 0,
        declaration: Declaration {
            name: None,
            line: 0,
            kind: None,
        },
        statement: Statement {
            line: 0,
            is_lost: false,
            is_mistyped: false,
            target: None,
        },
        call: Call {
            callee: None,
            line: 0,
            next: 0,
            slot: None,
        },
        name: Used {
            sort: None,
            line: 0,
        },
        fault: None,
        names: Vec::new(alloc),
        parts: Vec::new(alloc),
    }
}

// The rule that a token breaks which doesn't fit.
fn rule_of(token: &Token) -> u8
    ensures { result ≡ spec.rule_of token.now }
{
    match token {
        Token::Wrong => 1,
        _ => 2,
    }
}

impl Reader {
    /// A reader for this machine, which expects nothing yet.
    pub fn open(alloc: Global, machine: Builder) -> Reader
        ensures { result ≡ spec.before machine }
    {
        Reader {
            expected: Pile::new(alloc),
            checker: opening_checker(alloc, machine),
            stopped: false,
        }
    }

    /// It expects a file.
    pub fn start(&mut self) -> Result<(), OutOfMemory>
        ensures { OnOk result (self.new ≡
            record self.old { expected = Item.File ∷ self.old.expected }) }
    {
        self.expected.push(Item::File)
    }

    /// Whether it has stopped.
    pub fn is_stopped(&self) -> bool
        ensures { result ≡ self.now.stopped }
    {
        self.stopped
    }

    /// Takes a token in this line, unless the reader has stopped.
    #[tactic(auto, unfolding(crate::specs::Reading::step))]
    pub fn step(&mut self, token: &Token, line: u64) -> Result<(), OutOfMemory>
        ensures { OnOk result (self.new ≡
            spec.step self.old (record { token = token.now; line = line })) }
    {
        if self.stopped {
            return Ok(());
        }
        if self.checker.is_too_many(token) {
            self.cut_off(line);
            return Ok(());
        }
        self.checker.count();
        self.advance(token, line)
    }

    // A token is one too many.
    fn cut_off(&mut self, line: u64)
        ensures { self.new ≡ spec.cut_off line self.old }
    {
        self.checker.break_rule(line, 6);
        self.stopped = true;
    }

    // Takes a token.
    fn advance(&mut self, token: &Token, line: u64) -> Result<(), OutOfMemory>
        requires { self.old.stopped ≡ false }
        ensures { OnOk result (self.new ≡
            spec.advanced (record { token = token.now; line = line }) self.old.expected
            self.old.checked) }
    {
        while let Some(item) = self.expected.pop() {
            match row_of(item, token) {
                Row::Takes(note, items) => return self.take(line, note, items),
                Row::Begins(note, first, behind) => return self.begin(line, note, first, behind),
                Row::Passes(note) => self.checker.note(line, note)?,
                Row::Refuses => {
                    self.refuse(token, line);
                    return Ok(());
                }
            }
        }
        self.refuse(token, line);
        Ok(())
    }

    // A token doesn't fit.
    fn refuse(&mut self, token: &Token, line: u64)
        ensures { self.new ≡ spec.refused (record { token = token.now; line = line })
            self.old.expected self.old.checked }
    {
        self.checker.break_rule(line, rule_of(token));
        self.stopped = true;
    }

    // A token is taken that means this, and these items are expected.
    fn take(&mut self, line: u64, note: Note, items: &[Item]) -> Result<(), OutOfMemory>
        ensures { OnOk result (self.new ≡ record self.old {
          expected = items.now ++ self.old.expected;
          checked = noted line note self.old.checked;
        }) }
    {
        self.checker.note(line, note)?;
        self.expect(items)
    }

    // A token is taken that means this and begins an operand.
    fn begin(
        &mut self,
        line: u64,
        note: Note,
        first: &[Item],
        behind: &[Item],
    ) -> Result<(), OutOfMemory>
        ensures { OnOk result (self.new ≡ record self.old {
          expected = (first.now ++ behind.now) ++ self.old.expected;
          checked = noted line note self.old.checked;
        }) }
    {
        self.take(line, note, behind)?;
        self.expect(first)
    }

    // These items are expected before the others.
    fn expect(&mut self, items: &[Item]) -> Result<(), OutOfMemory>
        ensures { OnOk result (self.new ≡ record self.old {
          expected = items.now ++ self.old.expected;
        }) }
    {
        put_all(&mut self.expected, items)
    }
}

// Puts items on a pile, so that the first is on top.
fn put_all(pile: &mut Pile<Item>, items: &[Item]) -> Result<(), OutOfMemory>
    ensures { OnOk result (pile.new ≡ items.now ++ pile.old) }
{
    for put in 0..items.len() {
        pile.push(items[items.len() - 1 - put])?;
    }
    Ok(())
}
