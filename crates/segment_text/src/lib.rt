//! Trace segments: a text that says where a segment of a history begins, and holds the segment as a
//! trace of its own after that, so that it can be verified by itself. It stands on `motion_kernel`
//! for segments and on `trace_text` for traces. Begin at [`header_text`] and
//! [`read_trace_segment`], in the folders `writing` and `reading`.
#![tactic(auto)]

mod bits;
mod laws;
mod machine;
mod reading;
mod trace_segment;
mod writing;

pub use bits::numbers_have_bits;
pub use laws::{headers_are_read_back, records_are_read_back};
pub use machine::MachineText;
pub use reading::read::read_trace_segment;
pub use trace_segment::TraceSegment;
pub use writing::header::header_text;
