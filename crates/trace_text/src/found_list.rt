// The entries that were found, each in as little room as it takes.

ghost use Rattle.std.specs.Prelude.{◌≡◌, ◌+◌, ◌++◌, ◌∷◌, [], IfOk, OnOk, length, slice_get};
ghost use Rattle.std.specs.Option.{option_map};
ghost use Rattle.motion_history.specs.Entries.{cycle_count};
ghost use Rattle.motion_history.specs.Looks.{told};
ghost use Rattle.trace_text.specs.Held as held;
ghost use Rattle.trace_text.specs.TraceState as entries;

use crate::found::FoundEntry;
use crate::found_rooms::{Kept, Rooms};
use motion_history::{EntryLook, OutOfMemory, cycles_add_up};
use std::alloc::Global;
use std::marker::Model;

/// Entries that were found. Contracts see them as a list of `FoundEntry`.
#[derive(Drop)]
pub struct FoundList {
    kept: Vec<Kept>,
    rooms: Rooms,
    cycles: u32,
}

impl Model for FoundList {
    ghost use Rattle.std.specs.Prelude.{List};
    ghost use Rattle.trace_text.specs.declared.found.FoundEntry.{FoundEntry};

    ghost Value = { List FoundEntry };

    ghost use Rattle.trace_text.specs.FoundLists.{AreKept, entries_of};

    ghost view = { entries_of };

    ghost invariant = { AreKept };
}

// This many cycles, and one more where an entry is one; beyond 2^32 - 1 that is out of memory.
fn cycles_with(cycles: u32, entry: &FoundEntry) -> Result<u32, OutOfMemory>
    ensures { IfOk result (λ n. n ≡ cycles + cycle_count (entries.entry_of entry.now)) }
{
    let FoundEntry::Cycle(_) = entry else {
        return Ok(cycles);
    };
    match cycles.checked_add(1) {
        Some(more) => Ok(more),
        None => Err(OutOfMemory),
    }
}

impl FoundList {
    /// No entries.
    pub fn new(alloc: Global) -> FoundList
        ensures { result ≡ [] }
    {
        FoundList {
            kept: Vec::new(alloc),
            rooms: Rooms::new(alloc),
            cycles: 0,
        }
    }

    /// How many there are.
    pub fn len(&self) -> usize
        ensures { result ≡ length self.now }
    {
        self.kept.len()
    }

    /// Whether they keep within this many entries and cycles.
    pub fn are_within(&self, entries: u32, cycles: u32) -> bool
        ensures { result ≡ held.are_within entries cycles self.now }
    {
        self.kept.len() <= entries as usize && self.cycles <= cycles
    }

    /// Adds an entry.
    pub fn push(&mut self, entry: FoundEntry) -> Result<(), OutOfMemory>
        ensures { OnOk result (self.new ≡ self.old ++ entry ∷ []) }
    {
        // law: one entry more adds its own cycles
        cycles_add_up();
        let cycles = cycles_with(self.cycles, &entry)?;
        let kept = self.rooms.put_entry(entry)?;
        let Ok(()) = self.kept.push(kept) else {
            return Err(OutOfMemory);
        };
        self.cycles = cycles;
        Ok(())
    }

    /// The entry at a place, as it is looked at.
    pub fn look(&self, place: usize) -> Option<EntryLook<'_>>
        ensures { option_map told result ≡
            option_map entries.entry_of (slice_get self.now place) }
    {
        match self.kept.as_slice().get(place) {
            Some(kept) => Some(self.rooms.look(kept)),
            None => None,
        }
    }

    /// The places that the drives reported in the entry at a place.
    pub fn places(&self, place: usize) -> Option<&[i64]>
        ensures { option_map (λ p. p.now) result ≡
            option_map entries.places_of (slice_get self.now place) }
    {
        match self.kept.as_slice().get(place) {
            Some(kept) => Some(self.rooms.places(kept)),
            None => None,
        }
    }
}
