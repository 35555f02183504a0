//! Commands of function blocks: their rates, how a command ends, and the pool in which commands
//! wait, one list per axis or group. It stands on `plc_types` and `motion_numbers`. Its memory is
//! taken when it is opened. Begin at [`Wanted`], which is a command, and [`CommandPool`].
#![tactic(auto)]

mod ending;
mod linking;
mod notes;
mod pool;
mod rates;
mod wanted;

pub use ending::{Finish, Refusal};
pub use motion_numbers::OutOfMemory;
pub use notes::{Note, Notes};
pub use pool::CommandPool;
pub use rates::Rates;
pub use wanted::{Follow, Wanted, without};
