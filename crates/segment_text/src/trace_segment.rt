// A trace segment that was read.

use crate::machine::MachineText;
use motion_kernel::Before;
use trace_text::Trace;

/// A trace segment: what was before it, the machine with which it begins, and its trace, whose
/// cycles are counted from 1.
#[derive(Drop)]
pub struct TraceSegment {
    pub before: Before,
    pub machine: MachineText,
    pub trace: Trace,
}
