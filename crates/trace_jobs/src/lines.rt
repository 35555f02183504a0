// The lines that say how a trace was verified.

ghost use Rattle.std.specs.Prelude.{◌≡◌, IfOk, OnOk, ◌++◌, ◌∷◌, []};
ghost use Rattle.trace_jobs.specs.Lines as spec;

use itoa::Buffer;
use std::alloc::{AllocError, Global};
use trace_check::{Difference, Record};

/// The line that says that a trace is legal, with this many entries.
pub fn legal_line(alloc: Global, entries: u64) -> Result<Vec<u8>, AllocError>
    ensures { IfOk result (λ line. line.items ≡ spec.legal_line entries) }
{
    let mut count = Buffer::new();
    let mut line = Vec::from_slice(alloc, b"legal ")?;
    line.extend_from_slice(count.format(entries).as_bytes())?;
    line.extend_from_slice(b"\n")?;
    Ok(line)
}

// Adds a field after a comma.
fn push_field(line: &mut Vec<u8>, field: &[u8]) -> Result<(), AllocError>
    ensures { OnOk result (line.new.items ≡ (line.old.items ++ (44 ∷ [])) ++ field.now) }
{
    line.extend_from_slice(b",")?;
    line.extend_from_slice(field)?;
    Ok(())
}

// Adds a record, its fields with commas between them.
fn push_record(line: &mut Vec<u8>, fields: &Record) -> Result<(), AllocError>
    ensures { OnOk result (line.new.items ≡ line.old.items ++ spec.joined fields.now) }
{
    line.extend_from_slice(fields.field(0))?;
    for i in 1..fields.len() as usize {
        push_field(line, fields.field(i))?;
    }
    Ok(())
}

// Adds a record after what it is.
fn push_told(line: &mut Vec<u8>, told: &[u8], fields: &Record) -> Result<(), AllocError>
    ensures { OnOk result
        (line.new.items ≡ (line.old.items ++ told.now) ++ spec.joined fields.now) }
{
    line.extend_from_slice(told)?;
    push_record(line, fields)?;
    Ok(())
}

/// The lines that give the first record of a trace that is not the machine's.
pub fn illegal_lines(alloc: Global, difference: &Difference) -> Result<Vec<u8>, AllocError>
    ensures { IfOk result (λ line. line.items ≡ spec.illegal_lines difference.now) }
{
    let mut place = Buffer::new();
    let mut line = Vec::from_slice(alloc, b"illegal ")?;
    line.extend_from_slice(place.format(difference.place).as_bytes())?;
    push_told(&mut line, b"\nexpected ", &difference.expected)?;
    push_told(&mut line, b"\nfound ", &difference.found)?;
    line.extend_from_slice(b"\n")?;
    Ok(line)
}
