//! The simulated drives of a machine: one for each axis, in step with the kernel. It stands on
//! `drive_sim`; `bench_run` and `motion_plant` stand on it. Begin at [`open_drives`],
//! [`answer_all`] and [`step_all`].
#![tactic(auto)]

mod drives;
mod laws;

pub use drives::{
    answer_all, end_row, end_rows, open_drive, open_drives, positions_have_32_bits, step_all,
};
pub use laws::{drives_can_be_opened, drives_follow_their_outputs};
pub use motion_history::OutOfMemory;
