// A trace segment is verified from where it begins.

ghost use Rattle.std.specs.Prelude.{◌≡◌, ◌⊎◌};
ghost use Rattle.job_ends.specs.Ends.{EndsBy, EndsEarly};
ghost use Rattle.segment_job.specs.Begins.{begins_as_trace_segment};
ghost use Rattle.segment_job.specs.Ends.{EndsByTraceSegment, EndsByVerdict};
ghost use Rattle.segment_job.specs.Plans as plans;
ghost use Rattle.segment_job.specs.Plans.{legal_plan, plan_of_verdict};
ghost use Rattle.segment_text.specs.reading.Reading as read;
ghost use Rattle.segment_text.specs.reading.Reading.{ReadsBy};

use crate::lines::legal_text;
use job_ends::{Status, say, say_refused};
use motion_history::{OutOfMemory, Rule, TextFault, TextRefused};
use outside::Sink;
use segment_check::{Flaw, Verdict, check_trace_segment};
use segment_text::{TraceSegment, read_trace_segment};
use std::alloc::Global;
use trace_jobs::say_difference;

// The rule that a flaw of a header breaks.
fn number_of(flaw: Flaw) -> u8
    ensures { result ≡ plans.number_of flaw }
{
    match flaw {
        Flaw::Counts => 7,
        Flaw::Invariant => 8,
        Flaw::Owners => 9,
        Flaw::Commands => 10,
        Flaw::Kinds => 11,
        Flaw::States => 12,
        Flaw::Orders => 13,
        Flaw::Opening => 14,
    }
}

// Where it is reported: at the first record, or of the trace segment as a whole.
fn place_of(flaw: Flaw) -> u64
    ensures { result ≡ plans.beginning_place flaw }
{
    match flaw {
        Flaw::Counts | Flaw::Opening => 1,
        Flaw::Invariant
        | Flaw::Owners
        | Flaw::Commands
        | Flaw::Kinds
        | Flaw::States
        | Flaw::Orders => 0,
    }
}

// That no machine of the configuration may begin as the header says.
fn no_beginning(flaw: Flaw) -> TextRefused
    ensures { result ≡ plans.no_beginning flaw }
{
    TextRefused {
        place: place_of(flaw),
        rule: Rule {
            letter: b'G',
            number: number_of(flaw),
        },
    }
}

/// Whether a text begins as a trace segment does, by `segment,`.
#[tactic(auto, unfolding(crate::specs::Begins::begins_as_trace_segment))]
pub fn is_trace_segment(text: &[u8]) -> bool
    ensures { result ≡ begins_as_trace_segment text.now }
{
    text.starts_with(b"segment,")
}

/// Says whether the trace segment that a text is is legal, and with which header the next must
/// begin. The text is given up before it is verified.
pub fn check_trace_segment_text<K: Sink>(
    alloc: Global,
    name: &str,
    text: Vec<u8>,
    out: &mut K,
) -> Status
    ensures { EndsByTraceSegment name.now text.items
        (record { count = K.count out.old; told = K.told out.old })
        (record { count = K.count out.new; told = K.told out.new }) result }
{
    match trace_segment_of(alloc, text) {
        Ok(trace_segment) => verify_trace_segment(alloc, name, &trace_segment, out),
        Err(TextFault::Refused(refused)) => say_refused(alloc, 1, name, &refused, out),
        Err(TextFault::OutOfMemory) => Status::OutOfMemory,
    }
}

// The trace segment that a text is; only the trace segment stays in memory.
fn trace_segment_of(alloc: Global, text: Vec<u8>) -> Result<TraceSegment, TextFault>
    ensures { ReadsBy (read.trace_segment_of text.items) result }
{
    read_trace_segment(alloc, text.as_slice())
}

// Says whether a trace segment is legal.
fn verify_trace_segment<K: Sink>(
    alloc: Global,
    name: &str,
    trace_segment: &TraceSegment,
    out: &mut K,
) -> Status
    ensures { EndsByVerdict name.now trace_segment.now
        (record { count = K.count out.old; told = K.told out.old })
        (record { count = K.count out.new; told = K.told out.new }) result ⊎
        EndsEarly (record { count = K.count out.old; told = K.told out.old })
        (record { count = K.count out.new; told = K.told out.new }) result }
{
    match check_trace_segment(alloc, trace_segment) {
        Ok(verdict) => say_verdict(alloc, name, &verdict, out),
        Err(OutOfMemory) => Status::OutOfMemory,
    }
}

// Says how a trace segment was verified.
fn say_verdict<K: Sink>(alloc: Global, name: &str, verdict: &Verdict, out: &mut K) -> Status
    ensures { EndsBy (record { count = K.count out.old; told = K.told out.old })
        (record { count = K.count out.new; told = K.told out.new })
        (plan_of_verdict name.now verdict.now) result }
{
    match verdict {
        Verdict::NoBeginning(flaw) => say_refused(alloc, 1, name, &no_beginning(*flaw), out),
        Verdict::Legal { entries, next } => say_legal(alloc, *entries, next.as_slice(), out),
        Verdict::IllegalAt(difference) => say_difference(alloc, difference, out),
    }
}

// Says that a trace segment is legal, with this many entries, and with which header the next must
// begin.
fn say_legal<K: Sink>(alloc: Global, entries: u64, next: &[u8], out: &mut K) -> Status
    ensures { EndsBy (record { count = K.count out.old; told = K.told out.old })
        (record { count = K.count out.new; told = K.told out.new })
        (legal_plan entries next.now) result }
{
    let text = legal_text(alloc, entries, next);
    say(text, Status::Legal { entries }, out)
}
