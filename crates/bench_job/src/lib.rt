//! The job `bench`: a bench is run, and its trace written. It stands on `bench_run`, which runs the
//! bench, on `trace_text`, which writes the trace, and on `job_ends`, which says how a job ends.
//! Begin at [`run_text`].
#![tactic(auto)]

mod bench;
mod laws;

pub use bench::run_text;
pub use job_ends::Status;
pub use laws::room_leads_to_ok;
pub use outside::Sink;
