// The first record that differs, and the stop that it brings to a replay.

ghost use Rattle.trace_check.specs.Stops.{Tells};

use crate::record::Record;
use motion_history::OutOfMemory;

/// A record that is not the one expected.
#[derive(Drop)]
pub struct Difference {
    /// The number of the record in the text, the header being 1.
    pub place: u64,
    pub expected: Record,
    pub found: Record,
}

/// Why a replay stops.
#[derive(Drop)]
pub enum Stop {
    Differs(Difference),
    OutOfMemory,
}

impl From<OutOfMemory> for Stop {
    fn from(_: OutOfMemory) -> Stop {
        Stop::OutOfMemory
    }
}

/// The stop at two records of different values. Records that look the same come of the same values,
/// so it is none of those; it would be given up.
pub fn differing(place: u64, expected: Record, found: Record) -> Stop
    ensures { Tells place expected found result }
{
    if expected.is_same(&found) {
        return Stop::OutOfMemory;
    }
    Stop::Differs(Difference {
        place,
        expected,
        found,
    })
}
