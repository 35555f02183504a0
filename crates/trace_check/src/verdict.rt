// The verdict on a trace.

ghost use Rattle.std.specs.Prelude.{◌≡◌, ◌↔◌, [], IfOk, length};
ghost use Rattle.trace_text.specs.Held.{IsHeldOf};
ghost use Rattle.trace_text.specs.TraceState.{TraceState, entries_of};
ghost use Rattle.trace_check.specs.Legal.{IsLegalTrace, IsLegalTraceFrom};
ghost use Rattle.trace_check.specs.Verdicts as spec;

use crate::difference::Difference;
use crate::record::Record;
use crate::replaying::{Replayed, open_kernel, replay_from};
use motion_history::OutOfMemory;
use motion_kernel::SegmentedKernel;
use std::alloc::Global;
use trace_text::Trace;

/// The verdict on a trace.
#[derive(Drop)]
pub enum Verdict {
    /// It is legal, and has this many entries.
    Legal {
        entries: u64,
    },
    /// The record of this number, the header being 1, is the first that is not the one expected.
    IllegalAt {
        place: u64,
        expected: Record,
        found: Record,
    },
}

/// Verifies a trace from where a kernel of its configuration begins: legal exactly where it is that
/// of a history that is legal from there on, each drive having taken a setpoint in every cycle;
/// else the first record that differs.
pub fn check_from(
    alloc: Global,
    trace: &Trace,
    kernel: SegmentedKernel,
) -> Result<Verdict, OutOfMemory>
    requires config { kernel.config ≡ trace.now.config }
    requires empty { kernel.history ≡ [] }
    ensures verdict { IfOk result (λ v. v ≡ spec.verdict_from kernel.start trace.now) }
    ensures legal { IfOk result (λ v.
        (v ≡ Verdict.Legal (length (entries_of trace.now))) ↔
        IsLegalTraceFrom kernel.start trace.now) }
    ensures held { (whole : TraceState) → IsHeldOf whole trace.now →
        IfOk result (spec.IsVerdictFrom kernel.start whole) }
{
    match replay_from(alloc, trace, kernel)? {
        Replayed::Legal(_) => Ok(Verdict::Legal {
            entries: trace.entries(),
        }),
        Replayed::IllegalAt(
            Difference {
                place,
                expected,
                found,
            },
        ) => Ok(Verdict::IllegalAt {
            place,
            expected,
            found,
        }),
    }
}

/// Verifies a trace: legal exactly where it is that of a legal history of its machine, each drive
/// having taken a setpoint in every cycle; else the first record that differs. What lies after the
/// first entry for which there is no room changes no verdict, and needn't be held.
pub fn check(alloc: Global, trace: &Trace) -> Result<Verdict, OutOfMemory>
    ensures verdict { IfOk result (λ v. v ≡ spec.verdict_of trace.now) }
    ensures legal { IfOk result (λ v.
        (v ≡ Verdict.Legal (length (entries_of trace.now))) ↔ IsLegalTrace trace.now) }
    ensures held { (whole : TraceState) → IsHeldOf whole trace.now →
        IfOk result (spec.IsVerdictOn whole) }
{
    let kernel = open_kernel(alloc, trace)?;
    check_from(alloc, trace, kernel)
}
