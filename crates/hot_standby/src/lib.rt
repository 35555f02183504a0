//! Hot standby: a second kernel makes the events of a first, which come to it through a ring, and
//! takes its place with nothing lost. It stands on `motion_kernel` and on the ring of `rtrb`, and
//! takes no memory after it is opened. Begin at [`open_standby`], [`Feed`] and [`Standby`];
//! [`PrimaryKernel`] is a kernel that a follower may follow, used as a kernel is.
#![tactic(auto)]

mod event;
mod feed;
mod fits;
mod follower;
mod laws;
mod making;
mod opening;
mod primary;
mod standby;

pub use event::{Fed, FedEvent};
pub use feed::{Feed, FeedLog};
pub use laws::{followers_are_legal, taken_events_are_the_first_pushed};
pub use motion_kernel::{Config, DriveIn, DriveOut, Inputs, Kernel, Outputs};
pub use motion_numbers::OutOfMemory;
pub use opening::open_standby;
pub use primary::PrimaryKernel;
pub use standby::Standby;

/// How many slots the ring of a standby has at most.
pub const MOST_ROOM: u32 = 4_096;
