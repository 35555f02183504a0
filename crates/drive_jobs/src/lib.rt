//! Drives in threads of their own: the job that steps a drive by what its ring brings, and the line
//! that the cycle loop keeps to it. It stands on `setpoint_ring`, whose two ends they are, and on
//! `drive_sim`; begin at [`start_link`].
#![tactic(auto)]

mod drive_job;
mod link;

pub use drive_job::{DriveJob, DriveJobEnd, work_drive};
pub use link::{DriveLink, start_link};
