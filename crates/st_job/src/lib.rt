//! The job `st`: the tasks of a program in Structured Text on a machine, and the trace of the history
//! that they make. It stands on `machine_config` and `st_lang`, which read the two files, on
//! `st_rounds`, which runs the tasks, and on `job_ends`. Begin at [`st_files`].
#![tactic(auto)]

mod machine;
mod reading;
mod st;
mod trace;

pub use job_ends::Status;
pub use outside::{Files, Sink};
pub use st::st_files;
