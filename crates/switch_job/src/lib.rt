//! The job `switches`: the edges of a file's digital cam switches in a legal trace. It stands on
//! `switch_text`, `trace_text` and `trace_check`, since edges are reported of legal traces alone.
//! Begin at [`switch_files`].
#![tactic(auto)]

mod reading;
mod switches;

pub use job_ends::Status;
pub use outside::{Files, Sink};
pub use switches::switch_files;
