// The lines that a job says in place of its text.

ghost use Rattle.std.specs.Prelude.{◌≡◌, IfOk, codes, ◌++◌};
ghost use Rattle.std.specs.List.{flat_map};
ghost use Rattle.job_ends.specs.Plans as spec;

use itoa::Buffer;
use motion_history::TextRefused;
use std::alloc::{AllocError, Global};

/// Texts after each other.
pub fn joined(alloc: Global, pieces: &[&[u8]]) -> Result<Vec<u8>, AllocError>
    ensures { IfOk result (λ text. text.items ≡ flat_map (λ p. p.now) pieces.now) }
{
    let mut text = Vec::new(alloc);
    for piece in pieces {
        text.extend_from_slice(piece)?;
    }
    Ok(text)
}

/// A line of a beginning and the name of a file.
pub fn named_line(alloc: Global, beginning: &[u8], name: &str) -> Result<Vec<u8>, AllocError>
    ensures { IfOk result (λ line. line.items ≡ beginning.now ++ name.now ++ codes "\n") }
{
    let mut line = Vec::from_slice(alloc, beginning)?;
    line.extend_from_slice(name.as_bytes())?;
    line.extend_from_slice(b"\n")?;
    Ok(line)
}

/// The line that says where a text is refused, and by which rule.
pub fn refused_line(alloc: Global, name: &str, refused: &TextRefused) -> Result<Vec<u8>, AllocError>
    ensures { IfOk result (λ line. line.items ≡ spec.refused_line name.now refused.now) }
{
    let mut place = Buffer::new();
    let mut number = Buffer::new();
    let pieces: [&[u8]; 8] = [
        b"refused ",
        name.as_bytes(),
        b" ",
        place.format(refused.place).as_bytes(),
        b" ",
        &[refused.rule.letter],
        number.format(refused.rule.number).as_bytes(),
        b"\n",
    ];
    joined(alloc, &pieces)
}
