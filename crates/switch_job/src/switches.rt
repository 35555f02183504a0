// The edges of the switches of a file in a legal trace.

ghost use Rattle.std.specs.Prelude.{◌≡◌, false};
ghost use Rattle.job_ends.specs.Causes.{is_fault};
ghost use Rattle.job_ends.specs.Ends.{EndsBy};
ghost use Rattle.outside.specs.Faults.{Rose};
ghost use Rattle.switch_job.specs.Ends.{EndsBySwitches};
ghost use Rattle.switch_job.specs.Given.{TellsLegal};
ghost use Rattle.switch_job.specs.Plans.{plan_of_switches};
ghost use Rattle.trace_text.specs.Held.{IsHeldOf};
ghost use Rattle.trace_text.specs.TraceState.{TraceState};

use crate::reading::read_both;
use job_ends::{Status, status_by};
use motion_history::OutOfMemory;
use outside::{Files, Sink};
use std::alloc::Global;
use switch_text::{Switches, write_edges};
use trace_check::{Difference, Verdict, check};
use trace_jobs::say_difference;
use trace_text::Trace;

/// Writes the edges of the switches that the second file has, in the trace that the first file is,
/// if the trace is legal; else gives its first record that is not the machine's. The trace is read
/// and refused first, then the switch file; then the trace is verified.
pub fn switch_files<F: Files, K: Sink>(
    alloc: Global,
    trace_name: &str,
    file_name: &str,
    files: &mut F,
    out: &mut K,
) -> Status
    ensures { EndsBySwitches (F.told files.old) (Rose (F.count files.old) (F.count files.new))
        trace_name.now file_name.now
        (record { count = K.count out.old; told = K.told out.old })
        (record { count = K.count out.new; told = K.told out.new }) result }
{
    match read_both(alloc, trace_name, file_name, files, out) {
        Ok(both) => write_both(alloc, &both.trace, &both.switches, out),
        Err(status) => status,
    }
}

// Writes the edges of switches in a trace, if it is legal.
fn write_both<K: Sink>(alloc: Global, trace: &Trace, switches: &Switches, out: &mut K) -> Status
    ensures ends { (whole : TraceState) → IsHeldOf whole trace.now →
        EndsBy (record { count = K.count out.old; told = K.told out.old })
        (record { count = K.count out.new; told = K.told out.new })
        (plan_of_switches whole switches.now) result }
    ensures legal { (whole : TraceState) → IsHeldOf whole trace.now →
        is_fault result ≡ false → TellsLegal whole }
{
    match check(alloc, trace) {
        Ok(Verdict::Legal { .. }) => status_by(
            Status::Ok,
            write_edges(alloc, switches, trace, out),
        ),
        Ok(
            Verdict::IllegalAt {
                place,
                expected,
                found,
            },
        ) => {
            let difference = Difference {
                place,
                expected,
                found,
            };
            say_difference(alloc, &difference, out)
        }
        Err(OutOfMemory) => Status::OutOfMemory,
    }
}
