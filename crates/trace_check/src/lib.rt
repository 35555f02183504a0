//! Replays a trace on the kernel, from opening on or from where a kernel begins, and verifies it:
//! legal, or the first record that differs. It stands on `trace_text`, which reads, and on
//! `motion_kernel`, which makes each entry anew; records are compared only where an entry differs.
//! Begin at [`check`] and [`Verdict`].
#![tactic(auto)]

mod difference;
mod drives;
mod entry;
mod laws;
mod making;
mod record;
mod replaying;
mod rows;
mod texts;
mod verdict;

pub use difference::Difference;
pub use laws::{
    kept_histories_are_read_back, migrated_traces_are_legal, traces_tell_their_history,
};
pub use motion_kernel::SegmentedKernel;
pub use record::Record;
pub use replaying::{Replayed, replay, replay_from};
pub use trace_text::{OutOfMemory, Trace, read_trace};
pub use verdict::{Verdict, check, check_from};
