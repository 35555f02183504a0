//! The job `scope`: the scope report of a trace is made by joined work and written. It stands on
//! `scope_report`; begin at [`scope_file`].
#![tactic(auto)]

mod scoping;

pub use job_ends::Status;
pub use outside::{Files, Sink};
pub use scoping::scope_file;
