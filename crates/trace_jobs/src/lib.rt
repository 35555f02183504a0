//! The jobs `check` and `migrate`: a trace is replayed and verified, or written in version 2, one of
//! version 3 in version 3. It stands on `trace_check`, `trace_text` and `job_ends`. Begin at
//! [`check_text`] and [`migrate_text`].
#![tactic(auto)]

mod lines;
mod traces;

pub use job_ends::Status;
pub use lines::legal_line;
pub use outside::Sink;
pub use trace_check::Difference;
pub use traces::{check_text, migrate_text, say_difference};
