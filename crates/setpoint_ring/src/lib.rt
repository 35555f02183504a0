//! The ring between the kernel and a drive: outputs go to the drive and answers come back, each in
//! its order and once. It stands on `rtrb`, a ring for one producer and one consumer, and on
//! `plc_types` for what goes through. Begin at [`ring`], which makes both ends; what each end
//! knows of the other is kept in proofs alone.
#![tactic(auto, using(crate::proofs::Items::items_length, crate::proofs::Items::items_more))]

mod drive_end;
mod kernel_end;
mod laws;
mod logs;
mod numbered;
mod outputs;
mod pair;

pub use drive_end::DriveEnd;
pub use kernel_end::KernelEnd;
pub use laws::{new_ends_are_beside, taken_items_are_the_first_sent};
pub use logs::{DriveLog, KernelLog, OutList};
pub use motion_numbers::OutOfMemory;
pub use numbered::{AnswersInOrder, Numbered, OutputsInOrder, ToDrive};
pub use pair::{beside, ring};
pub use plc_types::{DriveIn, DriveOut};

/// How many outputs go through a ring at most, one for each cycle.
pub const MOST_OUTPUTS: u32 = 200_000;

/// How many slots a ring has at most, each way.
pub const MOST_ROOM: u32 = 4_096;
