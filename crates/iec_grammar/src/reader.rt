// A reader, and how tokens lead it on.

ghost use Rattle.std.specs.Prelude.{◌≡◌, ◌++◌, ◌∷◌, OnOk, IfOk, None, Some, is_some};
ghost use Rattle.iec_grammar.specs.Reading as spec;
ghost use Rattle.iec_grammar.specs.Told.{told};
ghost use Rattle.iec_grammar.specs.declared.item.Item.{Item};

use crate::counts::{Counts, counted};
use crate::item::Item;
use crate::pile::{Pile, push};
use crate::reading::Reading;
use crate::row::Row;
use crate::table::row_of;
use iec_tokens::{Placed, Token};
use iec_tree::{Node, Part};
use line_text::LineRefused;
use motion_numbers::OutOfMemory;
use std::alloc::Global;
use std::marker::Model;

/// A text as far as it was read. Contracts see it as a `Stand`.
#[derive(Drop)]
pub struct Reader {
    expected: Pile<Item>,
    counts: Counts,
    nodes: Vec<Node>,
    refused: Option<LineRefused>,
}

impl Model for Reader {
    ghost use Rattle.iec_grammar.specs.Reading.{Stand};

    ghost Value = { Stand };

    ghost view = { λ r. record { expected = r.expected; counts = r.counts; nodes = r.nodes.items; refused = r.refused } };
}

// The rule that a token breaks which doesn't fit.
fn rule_of(token: &Token) -> u8
    ensures { result ≡ spec.rule_of token.now }
{
    match token {
        Token::Wrong => 1,
        Token::TooMany => 6,
        _ => 2,
    }
}

impl Reader {
    /// A reader that expects a file.
    #[tactic(auto, unfolding(crate::specs::Reading::opening))]
    pub fn open(alloc: Global) -> Result<Reader, OutOfMemory>
        ensures { IfOk result (λ r. r ≡ spec.opening) }
    {
        let mut expected = Pile::new(alloc);
        expected.push(Item::File)?;
        let counts = Counts {
            programs: 0,
            statements: 0,
            nested: 0,
            in_call: false,
            begun: 1,
        };
        Ok(Reader {
            expected,
            counts,
            nodes: Vec::new(alloc),
            refused: None,
        })
    }

    /// Whether it has stopped.
    pub fn is_stopped(&self) -> bool
        ensures { result ≡ is_some self.now.refused }
    {
        self.refused.is_some()
    }

    /// Takes a token, unless the reader has stopped.
    #[tactic(auto, unfolding(crate::specs::Reading::step))]
    pub fn step(&mut self, placed: &Placed) -> Result<(), OutOfMemory>
        ensures { OnOk result (self.new ≡ spec.step self.old placed.now) }
    {
        if self.is_stopped() {
            return Ok(());
        }
        self.advance(placed)
    }

    // Takes a token.
    fn advance(&mut self, placed: &Placed) -> Result<(), OutOfMemory>
        ensures { OnOk result (self.new ≡ spec.advanced placed.now self.old.expected self.old) }
    {
        while let Some(item) = self.expected.pop() {
            match row_of(item, &placed.token) {
                Row::Takes(part, items) => return self.take(part, placed.line, items.as_slice()),
                Row::Passes(part) => self.pass(part, placed.line)?,
                Row::Refuses => {
                    self.stop(placed.line, rule_of(&placed.token));
                    return Ok(());
                }
                Row::Misnamed => {
                    self.stop(self.counts.begun, 2);
                    return Ok(());
                }
            }
        }
        self.end(placed)
    }

    // Takes a token where nothing more is expected.
    fn end(&mut self, placed: &Placed) -> Result<(), OutOfMemory>
        ensures { OnOk result (self.new ≡
            spec.ended placed.now.token placed.now.line self.old) }
    {
        match placed.token {
            Token::End => self.add(Part::End, placed.line),
            _ => {
                self.stop(placed.line, rule_of(&placed.token));
                Ok(())
            }
        }
    }

    // Stops by a rule that this line breaks.
    fn stop(&mut self, line: u64, rule: u8)
        ensures { self.new ≡ spec.stopped line rule self.old }
    {
        self.refused = Some(LineRefused { line, rule });
    }

    // Adds a node.
    fn add(&mut self, part: Part, line: u64) -> Result<(), OutOfMemory>
        ensures { OnOk result (self.new ≡ spec.with_node part line self.old) }
    {
        push(&mut self.nodes, Node { part, line })
    }

    // An item has ended as this part, where it is one.
    fn pass(&mut self, part: Option<Part>, line: u64) -> Result<(), OutOfMemory>
        ensures { OnOk result (self.new ≡ spec.passed part line self.old) }
    {
        match part {
            Some(part) => self.add(part, line),
            None => Ok(()),
        }
    }

    // A token is taken as this part, where it is one, and these items are expected.
    fn take(&mut self, part: Option<Part>, line: u64, items: &[Item]) -> Result<(), OutOfMemory>
        ensures { OnOk result (self.new ≡
            spec.taken part line (record self.old { expected = items.now ++ self.old.expected })) }
    {
        put_all(&mut self.expected, items)?;
        match part {
            Some(part) => self.take_part(part, line),
            None => Ok(()),
        }
    }

    // A token is taken as this part, if no bound is broken.
    fn take_part(&mut self, part: Part, line: u64) -> Result<(), OutOfMemory>
        ensures { OnOk result (self.new ≡ spec.taken (Some part) line self.old) }
    {
        match counted(&self.counts, &part, line) {
            Ok(counts) => {
                self.counts = counts;
                self.add(part, line)
            }
            Err(broken) => {
                self.stop(broken, 6);
                Ok(())
            }
        }
    }

    /// What was read.
    pub fn finish(self) -> Reading
        ensures { told result ≡ spec.outcome_of self }
    {
        Reading {
            nodes: self.nodes,
            refused: self.refused,
        }
    }
}

// Puts items on a pile, so that the first is on top.
fn put_all(pile: &mut Pile<Item>, items: &[Item]) -> Result<(), OutOfMemory>
    ensures { OnOk result (pile.new ≡ items.now ++ pile.old) }
{
    for put in 0..items.len() {
        pile.push(items[items.len() - 1 - put])?;
    }
    Ok(())
}
