// The verdict on a trace segment.

ghost use Rattle.std.specs.Prelude.{◌≡◌, IfOk};
ghost use Rattle.segment_check.specs.Begun.{MayBegin, begun};
ghost use Rattle.segment_check.specs.Verified.{IsVerified};

use crate::flaw::Flaw;
use crate::next::header_behind;
use crate::starting::kernel_of;
use motion_kernel::SegmentedKernel;
use segment_text::TraceSegment;
use std::alloc::Global;
use trace_check::{Difference, OutOfMemory, Replayed, replay_from};

/// The verdict on a trace segment.
#[derive(Drop)]
pub enum Verdict {
    /// No machine of its configuration begins as its header says, for its first flaw.
    NoBeginning(Flaw),
    /// It is legal, has this many entries, and the next trace segment must begin with this header:
    /// nothing where its counts have no place in one.
    Legal { entries: u64, next: Vec<u8> },
    /// The first record of its trace that is not the machine's, counted from the trace's header,
    /// which is 1.
    IllegalAt(Difference),
}

/// Verifies a trace segment: legal exactly where a machine of its configuration may begin as its
/// header says and its trace is that of a history that is legal from there on, each drive having
/// taken a setpoint in every cycle; else the first record that differs. It takes memory for a
/// kernel with two segments, and for the next header.
pub fn check_trace_segment(
    alloc: Global,
    trace_segment: &TraceSegment,
) -> Result<Verdict, OutOfMemory>
    ensures { IfOk result (IsVerified trace_segment.now) }
{
    match kernel_of(alloc, trace_segment)? {
        Ok(kernel) => replay_trace_segment(alloc, trace_segment, kernel),
        Err(flaw) => Ok(Verdict::NoBeginning(flaw)),
    }
}

// Replays a trace segment on the kernel that begins where it does.
fn replay_trace_segment(
    alloc: Global,
    trace_segment: &TraceSegment,
    kernel: SegmentedKernel,
) -> Result<Verdict, OutOfMemory>
    requires may { MayBegin trace_segment.now }
    requires begun { kernel ≡ begun trace_segment.now }
    ensures { IfOk result (IsVerified trace_segment.now) }
{
    match replay_from(alloc, &trace_segment.trace, kernel)? {
        Replayed::Legal(kernel) => Ok(Verdict::Legal {
            entries: trace_segment.trace.entries(),
            next: header_behind(alloc, kernel)?,
        }),
        Replayed::IllegalAt(difference) => Ok(Verdict::IllegalAt(difference)),
    }
}
