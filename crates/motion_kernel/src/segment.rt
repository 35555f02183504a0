// A segment of a history: where it begins, and the entries since.

ghost use Rattle.std.specs.Prelude.{◌↔◌, IfOk, IsTrue};
ghost use Rattle.motion_kernel.specs.Segments.{IsEarly, IsUnused};

use crate::layout::Layout;
use crate::start::Start;
use motion_history::{History, OutOfMemory};
use std::alloc::Global;

/// What was before a segment.
#[derive(Clone, Copy, Debug, PartialEq, Eq)]
pub struct Before {
    /// How many segments.
    pub segments: u64,
    /// How many entries they have together.
    pub entries: u64,
    /// How many of these are cycles.
    pub cycles: u64,
}

impl Before {
    /// Whether so little was before that more can be counted.
    pub fn is_early(&self) -> bool
        ensures { IsTrue result ↔ IsEarly self.now }
    {
        self.segments < 1 << 63 && self.entries < 1 << 63 && self.cycles < 1 << 63
    }
}

// Nothing was before.
const NOTHING_BEFORE: Before = Before {
    segments: 0,
    entries: 0,
    cycles: 0,
};

/// A segment: what was before it, the machine with which it begins, and the entries since, whose
/// cycles are counted from 1.
#[derive(Drop)]
pub struct Segment {
    pub before: Before,
    pub start: Start,
    pub history: History,
}

impl Segment {
    /// A segment with its whole room reserved, which begins at opening and was never used.
    pub(crate) fn empty(alloc: Global, layout: &Layout) -> Result<Segment, OutOfMemory>
        ensures { IfOk result (IsUnused layout.now) }
    {
        Ok(Segment {
            before: NOTHING_BEFORE,
            start: Start::open(alloc, layout)?,
            history: History::open(alloc, layout.config())?,
        })
    }
}
