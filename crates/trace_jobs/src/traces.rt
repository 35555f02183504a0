// A trace is replayed and verified, or written again.

ghost use Rattle.std.specs.Prelude.{◌≡◌, None, false, IfOk};
ghost use Rattle.job_ends.specs.Ends.{EndsBy};
ghost use Rattle.trace_jobs.specs.Ends.{EndsByCheck, EndsByMigrate};
ghost use Rattle.trace_jobs.specs.Verified.{JudgesBy, tells_illegal, tells_legal};
ghost use Rattle.trace_jobs.specs.Plans.{illegal_plan, verified_plan, plan_of_check, plan_of_migrate};
ghost use Rattle.trace_check.specs.Laws.{migrated_version};
ghost use Rattle.trace_text.specs.TraceKept.{IsTraceKept};
ghost use Rattle.trace_text.specs.Held.{IsHeldOf, ReadsHeld};
ghost use Rattle.trace_text.specs.TraceState.{TraceState};
ghost use Rattle.trace_text.specs.reading.Reading as read;

use crate::lines::{illegal_lines, legal_line};
use job_ends::{Status, say, say_refused, status_by};
use motion_history::{OutOfMemory, TextFault, TraceVersion};
use outside::Sink;
use std::alloc::Global;
use trace_check::{Difference, Replayed, Trace, Verdict, check, migrated_traces_are_legal, replay};
use trace_text::{read_within_room, trace_version, write_trace};

/// Says whether the trace that a text is is legal. The text is given up before it is verified.
pub fn check_text<K: Sink>(alloc: Global, name: &str, text: Vec<u8>, out: &mut K) -> Status
    ensures { EndsByCheck name.now text.items
        (record { count = K.count out.old; told = K.told out.old })
        (record { count = K.count out.new; told = K.told out.new }) result }
{
    match trace_of(alloc, text) {
        Ok(trace) => check_trace(alloc, &trace, out),
        Err(TextFault::Refused(refused)) => say_refused(alloc, 1, name, &refused, out),
        Err(TextFault::OutOfMemory) => Status::OutOfMemory,
    }
}

// The trace that a text is, as far as a verify of it wants it; only that stays in memory.
fn trace_of(alloc: Global, text: Vec<u8>) -> Result<Trace, TextFault>
    ensures reading { ReadsHeld (read.trace_of text.items) result }
    ensures kept { IfOk result (λ t. IsTraceKept t) }
{
    read_within_room(alloc, text.as_slice())
}

// Says whether a trace is legal.
fn check_trace<K: Sink>(alloc: Global, trace: &Trace, out: &mut K) -> Status
    requires { IsTraceKept trace.now }
    ensures verified { (whole : TraceState) → IsHeldOf whole trace.now →
        JudgesBy (λ t. t ≡ whole) result }
    ensures ends { (whole : TraceState) → IsHeldOf whole trace.now →
        EndsBy (record { count = K.count out.old; told = K.told out.old })
        (record { count = K.count out.new; told = K.told out.new })
        (plan_of_check whole) result }
{
    // laws
    migrated_traces_are_legal();
    match check(alloc, trace) {
        Ok(Verdict::Legal { entries }) => say_legal(alloc, entries, out),
        Ok(
            Verdict::IllegalAt {
                place,
                expected,
                found,
            },
        ) => {
            let difference = Difference {
                place,
                expected,
                found,
            };
            say_difference(alloc, &difference, out)
        }
        Err(OutOfMemory) => Status::OutOfMemory,
    }
}

/// Writes the trace that a text is again, if it is legal: in version 2, or in version 3 where it is
/// of version 3. The text is given up before it is verified.
pub fn migrate_text<K: Sink>(alloc: Global, name: &str, text: Vec<u8>, out: &mut K) -> Status
    ensures { EndsByMigrate name.now text.items
        (record { count = K.count out.old; told = K.told out.old })
        (record { count = K.count out.new; told = K.told out.new }) result }
{
    match trace_of(alloc, text) {
        Ok(trace) => migrate_trace(alloc, &trace, out),
        Err(TextFault::Refused(refused)) => say_refused(alloc, 1, name, &refused, out),
        Err(TextFault::OutOfMemory) => Status::OutOfMemory,
    }
}

// The version in which a trace is written again: version 2 of versions 1 and 2, and version 3 where
// the machine has a kind of block that only version 3 has.
fn version_again(trace: &Trace) -> TraceVersion
    ensures { result ≡ migrated_version trace.now }
{
    let version = match trace.version() {
        TraceVersion::One | TraceVersion::Two => TraceVersion::Two,
        TraceVersion::Three => TraceVersion::Three,
    };
    trace_version(version, trace.config())
}

// Writes a trace again, if it is legal.
fn migrate_trace<K: Sink>(alloc: Global, trace: &Trace, out: &mut K) -> Status
    requires { IsTraceKept trace.now }
    ensures verified { (whole : TraceState) → IsHeldOf whole trace.now →
        JudgesBy (λ t. t ≡ whole) result }
    ensures ends { (whole : TraceState) → IsHeldOf whole trace.now →
        EndsBy (record { count = K.count out.old; told = K.told out.old })
        (record { count = K.count out.new; told = K.told out.new })
        (plan_of_migrate whole) result }
{
    // laws
    migrated_traces_are_legal();
    match replay(alloc, trace) {
        Ok(Replayed::Legal(kernel)) => {
            let written = write_trace(
                alloc,
                version_again(trace),
                trace.command(),
                trace.config(),
                kernel.history(),
                trace.drives(),
                out,
            );
            status_by(Status::Ok, written)
        }
        Ok(Replayed::IllegalAt(difference)) => say_difference(alloc, &difference, out),
        Err(OutOfMemory) => Status::OutOfMemory,
    }
}

// Says that a trace is legal, with this many entries.
fn say_legal<K: Sink>(alloc: Global, entries: u64, out: &mut K) -> Status
    ensures illegal { tells_illegal result ≡ false }
    ensures ends { EndsBy (record { count = K.count out.old; told = K.told out.old })
        (record { count = K.count out.new; told = K.told out.new })
        (verified_plan entries None) result }
{
    let line = legal_line(alloc, entries);
    say(line, Status::Legal { entries }, out)
}

/// Says the first record of a trace that is not the machine's.
pub fn say_difference<K: Sink>(alloc: Global, difference: &Difference, out: &mut K) -> Status
    ensures legal { tells_legal result ≡ false }
    ensures ends { EndsBy (record { count = K.count out.old; told = K.told out.old })
        (record { count = K.count out.new; told = K.told out.new })
        (illegal_plan difference.now) result }
{
    let record = difference.place;
    let lines = illegal_lines(alloc, difference);
    say(lines, Status::Illegal { record }, out)
}
