// What a text is read as, or the first rule that it breaks.

ghost use Rattle.std.specs.Prelude.{◌≡◌, ◌∷◌, OnOk};
ghost use Rattle.machine_words.specs.Rules.{refused_by};
ghost use Rattle.st_check.specs.Reading as spec;
ghost use Rattle.st_check.specs.Told.{TellsBy};
ghost use Rattle.st_grammar.specs.declared.item.Item.{Item};
ghost use Rattle.st_tokens.specs.Tokens.{tokens_of};

use crate::checker::Checker;
use crate::reader::Reader;
use crate::walk::read_tokens;
use machine_words::refused_by;
use motion_history::{Builder, TextFault};
use motion_numbers::OutOfMemory;
use plc_types::Name;
use st_tree::Part;
use std::alloc::Global;

/// A program as it was read: the names of its tasks and variables, and its parts.
#[derive(Drop)]
pub struct Told {
    pub names: Vec<Name>,
    pub parts: Vec<Part>,
}

/// What a text is read as for a machine, and the machine with its tasks and blocks; or the first
/// line that breaks a rule, and the first rule that it breaks there, S1 to S6. The machine may then
/// have some of the text's tasks and blocks.
#[tactic(auto, unfolding(crate::specs::Reading::reading_of))]
pub fn check_text(
    alloc: Global,
    text: &[u8],
    machine: Builder,
) -> (Builder, Result<Told, TextFault>)
    ensures { TellsBy (spec.reading_of machine text.now) result.1 result.0 }
{
    let mut reader = Reader::open(alloc, machine);
    match go_over(text, &mut reader) {
        Ok(()) => answer_of(reader),
        Err(_) => (machine_of(reader), Err(TextFault::OutOfMemory)),
    }
}

// Goes over a text.
fn go_over(text: &[u8], reader: &mut Reader) -> Result<(), OutOfMemory>
    ensures { OnOk result (reader.new ≡
        spec.run (record reader.old { expected = Item.File ∷ reader.old.expected })
        (tokens_of text.now)) }
{
    reader.start()?;
    read_tokens(text, reader)
}

// The machine of a reader that is given up.
fn machine_of(reader: Reader) -> Builder {
    let Reader { checker, .. } = reader;
    let Checker { machine, .. } = checker;
    machine
}

// What a reader gives at the end of its text.
#[tactic(auto, unfolding(crate::specs::Reading::outcome_of))]
fn answer_of(reader: Reader) -> (Builder, Result<Told, TextFault>)
    ensures { TellsBy (refused_by spec.letter (spec.outcome_of reader.checked))
        result.1 result.0 }
{
    let Reader { checker, .. } = reader;
    let Checker {
        machine,
        fault,
        names,
        parts,
        ..
    } = checker;
    match fault {
        None => (machine, Ok(Told { names, parts })),
        Some(refused) => (machine, Err(refused_by(b'S', refused))),
    }
}
