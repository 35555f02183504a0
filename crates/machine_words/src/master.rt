// The master of a call.

ghost use Rattle.std.specs.Prelude.{◌≡◌};
ghost use Rattle.std.specs.List.{list_all};
ghost use Rattle.line_text.specs.Reading.{Gives};
ghost use Rattle.line_text.specs.Texts.{texts};
ghost use Rattle.machine_words.specs.Given.{text_of};
ghost use Rattle.machine_words.specs.Inputs as spec;
ghost use Rattle.machine_words.specs.Names as names;

use crate::key::key_of;
use crate::name::{axis_at, axis_named};
use crate::rule::WRONG_NAME;
use line_text::LineFault;
use motion_history::Builder;
use plc_types::{BlockKind, Input, takes};

/// Whether each master that is given is an axis, where the kind takes one.
#[tactic(auto, unfolding(crate::specs::Inputs::are_masters_there))]
pub fn are_masters_there(machine: &Builder, kind: BlockKind, words: &[&[u8]]) -> bool
    ensures { result ≡ spec.are_masters_there machine.now kind (texts words.now) }
{
    !takes(kind, Input::Master) || give_masters_there(machine, words)
}

// Whether each master that words give is an axis.
fn give_masters_there(machine: &Builder, words: &[&[u8]]) -> bool
    ensures { result ≡ list_all (spec.is_master_there machine.now) (texts words.now) }
{
    words.iter().all(|word| is_master_there(machine, word))
}

// Whether a word gives no master, or the name of an axis.
#[tactic(auto, unfolding(crate::specs::Inputs::is_master_there))]
fn is_master_there(machine: &Builder, word: &[u8]) -> bool
    ensures { result ≡ spec.is_master_there machine.now word.now }
{
    let key = key_of(Input::Master).as_bytes();
    !word.starts_with(key) || axis_at(machine, &word[key.len()..]).is_some()
}

/// The master of a text, or the first axis.
pub fn master_or_first(machine: &Builder, text: Option<&[u8]>) -> Result<u8, LineFault>
    ensures { Gives (λ n. n)
        (spec.value_or 0 (names.axis_named WRONG_NAME machine.now) (text_of text.entry)) result }
{
    match text {
        Some(text) => axis_named(machine, WRONG_NAME, text),
        None => Ok(0),
    }
}
