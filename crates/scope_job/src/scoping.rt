// The scope report of the trace that a file is.

ghost use Rattle.std.specs.Prelude.{◌≡◌, ◌≤◌};
ghost use Rattle.job_ends.specs.Ends.{EndsBy};
ghost use Rattle.outside.specs.Faults.{Rose};
ghost use Rattle.scope_job.specs.Ends.{EndsByScope};
ghost use Rattle.scope_job.specs.Plans.{plan_of_scope, scope_plan};

use job_ends::{Status, read_text, say_refused, status_by};
use motion_history::TextFault;
use motion_numbers::OutOfMemory;
use outside::{Files, Sink};
use scope_report::{reports_say_what_is_asked, scope, write_report};
use std::alloc::Global;
use std::thread::Threads;
use trace_text::{Trace, read_trace};

/// The most bytes of a trace: 256 MiB.
const MOST_BYTES: u64 = 268_435_456;

/// Writes the scope report of the trace that the file of this name is, made in this many shares, at
/// least one, by joined work. The trace isn't checked, and the report is the same for every number
/// of workers. Where the file gives no trace it says why.
pub fn scope_file<F: Files, K: Sink, H: Threads + Sync>(
    rt: &H,
    alloc: Global,
    name: &str,
    workers: u8,
    files: &mut F,
    out: &mut K,
) -> Status
    requires some { 1 ≤ workers }
    ensures { EndsByScope (F.told files.old) (Rose (F.count files.old) (F.count files.new)) name.now
        (record { count = K.count out.old; told = K.told out.old })
        (record { count = K.count out.new; told = K.told out.new }) result }
{
    // laws
    reports_say_what_is_asked();
    match read_text(alloc, 1, name, MOST_BYTES, files, out) {
        Ok(text) => scope_text(rt, alloc, name, text.as_slice(), workers, out),
        Err(status) => status,
    }
}

// Writes the scope report of the trace that a text is.
fn scope_text<K: Sink, H: Threads + Sync>(
    rt: &H,
    alloc: Global,
    name: &str,
    text: &[u8],
    workers: u8,
    out: &mut K,
) -> Status
    requires some { 1 ≤ workers }
    ensures { EndsBy (record { count = K.count out.old; told = K.told out.old })
        (record { count = K.count out.new; told = K.told out.new })
        (scope_plan name.now text.now) result }
{
    match read_trace(alloc, text) {
        Ok(trace) => scope_trace(rt, alloc, &trace, workers, out),
        Err(TextFault::Refused(refused)) => say_refused(alloc, 1, name, &refused, out),
        Err(TextFault::OutOfMemory) => Status::OutOfMemory,
    }
}

// Writes the scope report of a trace.
fn scope_trace<K: Sink, H: Threads + Sync>(
    rt: &H,
    alloc: Global,
    trace: &Trace,
    workers: u8,
    out: &mut K,
) -> Status
    requires some { 1 ≤ workers }
    ensures { EndsBy (record { count = K.count out.old; told = K.told out.old })
        (record { count = K.count out.new; told = K.told out.new })
        (plan_of_scope trace.now) result }
{
    match scope(rt, alloc, trace, workers) {
        Ok(report) => status_by(Status::Ok, write_report(alloc, &report, out)),
        Err(OutOfMemory) => Status::OutOfMemory,
    }
}
