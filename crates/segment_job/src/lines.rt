// What is reported of a legal trace segment.

ghost use Rattle.std.specs.Prelude.{◌≡◌, IfOk, ◌++◌};
ghost use Rattle.trace_jobs.specs.Lines as spec;

use std::alloc::{AllocError, Global};
use trace_jobs::legal_line;

/// The line that says that a trace segment is legal, with this many entries, and the header with
/// which the next must begin.
pub fn legal_text(alloc: Global, entries: u64, next: &[u8]) -> Result<Vec<u8>, AllocError>
    ensures { IfOk result (λ text. text.items ≡ spec.legal_line entries ++ next.now) }
{
    let mut text = legal_line(alloc, entries)?;
    text.extend_from_slice(next)?;
    Ok(text)
}
