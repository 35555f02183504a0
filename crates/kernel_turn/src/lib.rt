//! Over threads: each call, cycle and end of a task takes the kernel in its turn, by tickets, and
//! its reply stands at its ticket's place in the one history. It stands on `motion_kernel`, whose
//! calls it makes, and on a ticket lock of `atomic_table`. Begin at [`KernelTurn`], [`Permit`] and
//! [`Turn`]; what a permit knows of the history is kept beside the lock in proofs alone.
#![tactic(auto)]

mod events;
mod housed;
mod kernel_turn;
mod permit;
mod rule;
mod steps;
mod turn;

pub use kernel_turn::KernelTurn;
pub use motion_kernel::{DriveIn, DriveOut, Inputs, Kernel, Outputs};
pub use motion_numbers::OutOfMemory;
pub use permit::Permit;
pub use turn::Turn;

/// How many permits may be out at a time.
pub const MOST_OUT: u64 = 1_000;
