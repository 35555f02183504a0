//! The scope report of a trace: how far each axis went and how long it stood, and what the calls of
//! each block came to. It is made in shares by joined work, and is the same for every number of
//! workers; begin at [`scope`].
#![tactic(auto)]

mod counts;
mod joining;
mod laws;
mod lines;
mod naming;
mod part;
mod report;
mod share;
mod shares;
mod writing;

pub use laws::reports_say_what_is_asked;
pub use motion_numbers::OutOfMemory;
pub use outside::Sink;
pub use report::{AxisReport, BlockReport, Report};
pub use shares::scope;
pub use trace_text::{Trace, TraceFault};
pub use writing::write_report;
