// What a text is read as.

ghost use Rattle.std.specs.Prelude.{◌≡◌, IfOk, OnOk};
ghost use Rattle.iec_grammar.specs.Reading as spec;
ghost use Rattle.iec_grammar.specs.Readings.{IsExact};
ghost use Rattle.iec_grammar.specs.Told.{told};

use crate::reader::Reader;
use iec_tokens::{Tokens, tokens_end_once};
use iec_tree::Node;
use line_text::LineRefused;
use motion_numbers::OutOfMemory;
use std::alloc::Global;

/// What a text is read as: its nodes, up to the first token that breaks a rule where one does, and
/// the line and the rule.
#[derive(Drop)]
pub struct Reading {
    pub nodes: Vec<Node>,
    pub refused: Option<LineRefused>,
}

// Leads a reader by tokens, until it stops.
fn lead(reader: &mut Reader, tokens: &mut Tokens) -> Result<(), OutOfMemory>
    ensures { OnOk result (reader.new ≡ spec.run reader.old tokens.old) }
{
    while let Some(placed) = tokens.next() {
        reader.step(&placed)?;
        if reader.is_stopped() {
            return Ok(());
        }
    }
    Ok(())
}

// Reads a text by the table.
#[tactic(auto, unfolding(crate::specs::Reading::reading_of))]
fn read(alloc: Global, text: &[u8]) -> Result<Reading, OutOfMemory>
    ensures { IfOk result (λ r. told r ≡ spec.reading_of text.now) }
{
    let mut reader = Reader::open(alloc)?;
    let mut tokens = Tokens::of(text);
    lead(&mut reader, &mut tokens)?;
    Ok(reader.finish())
}

/// Reads a text by the table of the grammar: the nodes of its tree, and the line and the rule of
/// the first token that is none (1), doesn't fit (2) or goes beyond a bound (6), where there is
/// one. There is none exactly where the text is one of the grammar.
pub fn read_tree(alloc: Global, text: &[u8]) -> Result<Reading, OutOfMemory>
    ensures reading { IfOk result (λ r. told r ≡ spec.reading_of text.now) }
    ensures exact { IfOk result (λ r. IsExact text.now (told r)) }
{
    // law: the last token is the only one of its sort
    tokens_end_once();
    let reading = read(alloc, text)?;
    Ok(reading)
}
