//! Verifies a trace segment by itself: whether of the machine with which it begins the invariant is
//! true, whoever has a command in it has a block there, and its trace is legal from there on; and
//! gives the header with which the next trace segment must begin. It stands on `segment_text`,
//! which reads, on `kernel_invariants`, which tests the machine, and on `trace_check`, which
//! replays. Begin at [`check_trace_segment`] and [`Verdict`].
#![tactic(auto)]

mod counting;
mod filling;
mod flaw;
mod laws;
mod next;
mod orders;
mod starting;
mod steered;
mod verifying;

pub use flaw::Flaw;
pub use laws::{
    rows_of_trace_segments_tell_pasts, segments_of_kernels_may_begin, texts_by_headers_tell_pasts,
};
pub use segment_text::{TraceSegment, read_trace_segment};
pub use starting::kernel_of;
pub use trace_check::{Difference, OutOfMemory};
pub use verifying::{Verdict, check_trace_segment};
