// The outputs of a call in a trace.

ghost use Rattle.std.specs.Prelude.{◌≡◌, IfOk};
ghost use Rattle.trace_columns.specs.Columns as spec;

use crate::fields::outputs_text;
use plc_types::Outputs;
use std::alloc::{AllocError, Global};

// Whether a letter stands in a text.
fn has_letter(letter: u8, text: &[u8]) -> bool
    ensures { result ≡ spec.has_letter letter text.now }
{
    text.iter().any(|b| *b == letter)
}

// The outputs whose letters stand in a text.
fn letters_of(text: &[u8], error_id: u16) -> Outputs
    ensures { result ≡ spec.letters_of text.now error_id }
{
    Outputs {
        busy: has_letter(b'B', text),
        active: has_letter(b'A', text),
        done: has_letter(b'D', text),
        aborted: has_letter(b'C', text),
        error: has_letter(b'E', text),
        error_id,
        reached: has_letter(b'R', text),
    }
}

/// The outputs of which a field has the letters, in their order, with this ErrorID.
#[tactic(auto, unfolding(crate::specs::Columns::outputs_of))]
pub fn outputs_of(alloc: Global, text: &[u8], error_id: u16) -> Result<Option<Outputs>, AllocError>
    ensures { IfOk result (λ o. o ≡ spec.outputs_of text.now error_id) }
{
    let outputs = letters_of(text, error_id);
    let letters = outputs_text(alloc, &outputs)?;
    if letters.as_slice() == text {
        Ok(Some(outputs))
    } else {
        Ok(None)
    }
}
