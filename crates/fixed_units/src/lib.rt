//! Exact decimals of nine places, and rates per second as steps per cycle. Quantities are read and
//! written exactly, with no floating point, and give the first fault where they are none. It stands
//! on nothing. Begin at [`read_units`], [`write_units`] and [`per_cycle`].
#![tactic(auto)]

mod laws;
mod rates;
mod reading;
mod text;
mod writing;

pub use laws::{reads_what_is_spelled, reads_what_is_written, tells_the_first_fault};
pub use rates::{per_cycle, per_cycle2, per_cycle3};
pub use reading::{UnitFault, read_units};
pub use text::Text40;
pub use writing::write_units;
