// The entries of a trace that are held while it is read: all, or those alone that a verify wants.

ghost use Rattle.std.specs.Prelude.{◌≡◌, Bool, None, OnOk, false};
ghost use Rattle.trace_text.specs.Held.{keep_within};
ghost use Rattle.trace_text.specs.reading.Holding.{IsHeldSoFar, StandsAt};
ghost use Rattle.trace_text.specs.reading.SoFar.{SoFar};

use crate::found_list::FoundList;
use crate::reading::reader::TraceReader;
use motion_history::OutOfMemory;
use std::mem;

// Whether the entries that a reader has keep within the room of its machine.
#[tactic(auto, unfolding(crate::specs::Held::keep_within))]
fn keeps_within(reader: &TraceReader) -> bool
    ensures { result ≡ keep_within reader.now.setup reader.now.found }
{
    let machine = &reader.machine;
    reader.found.are_within(machine.entries(), machine.cycles())
}

/// Sets the first entries apart, once they don't keep within the room; those after them are given
/// up.
pub fn set_apart(reader: &mut TraceReader, first: &mut Option<FoundList>)
    ensures { (whole : SoFar) → StandsAt whole reader.old first.old →
        StandsAt whole reader.new first.new }
{
    if first.is_some() {
        reader.found = FoundList::new(reader.alloc);
    } else if !keeps_within(reader) {
        *first = Some(mem::replace(&mut reader.found, FoundList::new(reader.alloc)));
    }
}

/// Gives a reader the first entries back that were set apart. The room has stood since the machine
/// part, so they don't keep within it; if they did, which no text brings about, the answer would be
/// out of memory.
pub fn give_back(reader: &mut TraceReader, first: Option<FoundList>) -> Result<(), OutOfMemory>
    ensures held { (within_room : Bool) (whole : SoFar) → (within_room ≡ false → first ≡ None) →
        StandsAt whole reader.old first → OnOk result (IsHeldSoFar within_room whole reader.new) }
{
    let Some(first) = first else {
        return Ok(());
    };
    reader.found = first;
    if keeps_within(reader) {
        return Err(OutOfMemory);
    }
    Ok(())
}
