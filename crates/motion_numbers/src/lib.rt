//! The whole numbers of motion: their ranges, and the sums of the ramps that they make. It stands
//! on nothing, and nearly all else stands on it: ways, steps, counts and their greatest values, so
//! that no number overflows 128 bits. Begin at [`ramp_sum`] and the ranges below. Here are also the
//! one answer that a call may always give where it takes memory, [`OutOfMemory`], and a counter for
//! contracts that say how often a thing is done, [`Counter`].
#![tactic(auto)]

mod counter;
mod laws;
mod out_of_memory;
mod ramp;
mod ranges;

pub use counter::Counter;
pub use laws::{searches_find_the_greatest, ways_to_rest};
pub use out_of_memory::OutOfMemory;
pub use ramp::{greatest_ramp, ramp_sum, run_sum, way_fits};
pub use ranges::is_outside;

/// The greatest size of a place, in internal units.
pub const MOST_PLACE: u64 = 1_000_000_000_000_000;

/// The greatest size of a way between two places, in internal units.
pub const MOST_WAY: u64 = 2_000_000_000_000_000;

/// The greatest size of a step, in internal units per cycle, and of its change from one cycle to
/// the next.
pub const MOST_STEP: u64 = 10_000_000_000;

/// The longest way to rest: that from the greatest step, braking by 1 each cycle.
pub const MOST_RAMP: u128 = 50_000_000_005_000_000_000;

/// The greatest increment of a drive, in internal units.
pub const MOST_INCREMENT: u64 = 1_000_000_000;

/// The greatest numerator, as a size, and the greatest denominator of a gear's ratio.
pub const MOST_RATIO: u64 = 1_000_000;

/// The greatest size of a number in a text and of a block's input.
pub const MOST_NUMBER: u64 = 1_000_000_000_000_000_000;
