//! The job `check` of a text that begins as a trace segment does: the trace segment is verified
//! from where it begins, and where it is legal the header is reported with which the next trace
//! segment must begin. It stands on `segment_check`, `segment_text`, `trace_jobs` and `job_ends`.
//! Begin at [`check_trace_segment_text`] and [`is_trace_segment`].
#![tactic(auto)]

mod laws;
mod lines;
mod trace_segments;

pub use job_ends::Status;
pub use laws::trace_segments_and_traces_begin_apart;
pub use outside::Sink;
pub use trace_segments::{check_trace_segment_text, is_trace_segment};
