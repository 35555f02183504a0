// A trace and the switches on its axes are read from two files.

ghost use Rattle.std.specs.Prelude.{◌≡◌, IfErr, IfOk, OnOk};
ghost use Rattle.outside.specs.Faults.{Rose};
ghost use Rattle.switch_text.specs.Reading as switches;
ghost use Rattle.switch_text.specs.Spelled.{IsSwitchText};
ghost use Rattle.trace_text.specs.Held.{ReadsHeld};
ghost use Rattle.trace_text.specs.reading.Reading as traces;
ghost use Rattle.switch_job.specs.Given.{GivesSwitches, HoldsBoth, HoldsTrace, NoBoth, NoSwitches, NoTrace};

use job_ends::{Status, read_text, say_refused};
use motion_history::TextFault;
use outside::{Files, Sink};
use std::alloc::Global;
use switch_text::{Switches, read_switches};
use trace_text::{Trace, read_within_room};

/// The most bytes of a trace: 256 MiB.
const MOST_TRACE: u64 = 268_435_456;

/// The most bytes of a switch file: 16 MiB.
const MOST_SWITCHES: u64 = 16_777_216;

/// A trace, as far as a verify of it wants it, and switches on its axes.
#[derive(Drop)]
pub struct Both {
    pub trace: Trace,
    pub switches: Switches,
}

/// What the two files give: the trace is read and refused before the switch file is read. Else says
/// why there is none, and answers how the job ends.
pub fn read_both<F: Files, K: Sink>(
    alloc: Global,
    trace_name: &str,
    file_name: &str,
    files: &mut F,
    out: &mut K,
) -> Result<Both, Status>
    ensures both { IfOk result (HoldsBoth (F.told files.old) trace_name.now file_name.now) }
    ensures none { IfErr result (NoBoth (F.told files.old)
        (Rose (F.count files.old) (F.count files.new)) trace_name.now file_name.now
        (record { count = K.count out.old; told = K.told out.old })
        (record { count = K.count out.new; told = K.told out.new })) }
    ensures silent { OnOk result (out.new ≡ out.old) }
{
    let trace = read_traced(alloc, trace_name, files, out)?;
    match read_switched(alloc, file_name, &trace, files, out) {
        Ok(switches) => Ok(Both { trace, switches }),
        Err(status) => Err(status),
    }
}

// The trace that the first file is, as far as a verify of it wants it.
fn read_traced<F: Files, K: Sink>(
    alloc: Global,
    name: &str,
    files: &mut F,
    out: &mut K,
) -> Result<Trace, Status>
    ensures trace { IfOk result (HoldsTrace (F.told files.old) name.now) }
    ensures none { IfErr result (NoTrace (F.told files.old)
        (Rose (F.count files.old) (F.count files.new)) name.now
        (record { count = K.count out.old; told = K.told out.old })
        (record { count = K.count out.new; told = K.told out.new })) }
    ensures silent { OnOk result (out.new ≡ out.old) }
    ensures told { F.told files.new ≡ F.told files.old }
    ensures kept { OnOk result (F.count files.new ≡ F.count files.old) }
{
    let text = read_text(alloc, 1, name, MOST_TRACE, files, out)?;
    match trace_of(alloc, text) {
        Ok(trace) => Ok(trace),
        Err(TextFault::Refused(refused)) => Err(say_refused(alloc, 1, name, &refused, out)),
        Err(TextFault::OutOfMemory) => Err(Status::OutOfMemory),
    }
}

// The trace that a text is, as far as a verify of it wants it; only that stays in memory.
fn trace_of(alloc: Global, text: Vec<u8>) -> Result<Trace, TextFault>
    ensures { ReadsHeld (traces.trace_of text.items) result }
{
    read_within_room(alloc, text.as_slice())
}

// The switches that the second file is, on the axes of a trace.
fn read_switched<F: Files, K: Sink>(
    alloc: Global,
    name: &str,
    trace: &Trace,
    files: &mut F,
    out: &mut K,
) -> Result<Switches, Status>
    ensures switches { IfOk result (GivesSwitches (F.told files.old) name.now trace.now) }
    ensures none { IfErr result (NoSwitches (F.told files.old)
        (Rose (F.count files.old) (F.count files.new)) name.now trace.now
        (record { count = K.count out.old; told = K.told out.old })
        (record { count = K.count out.new; told = K.told out.new })) }
    ensures silent { OnOk result (out.new ≡ out.old) }
{
    let text = read_text(alloc, 2, name, MOST_SWITCHES, files, out)?;
    match switches_of(alloc, text, trace) {
        Ok(switches) => Ok(switches),
        Err(TextFault::Refused(refused)) => Err(say_refused(alloc, 2, name, &refused, out)),
        Err(TextFault::OutOfMemory) => Err(Status::OutOfMemory),
    }
}

// The switches that a text has on the axes of a trace; the text is given up.
fn switches_of(alloc: Global, text: Vec<u8>, trace: &Trace) -> Result<Switches, TextFault>
    ensures found { IfOk result (IsSwitchText trace.now.config text.items) }
    ensures exact { switches.ReadsBy (switches.switches_of trace.now.config text.items) result }
{
    read_switches(alloc, text.as_slice(), trace.config())
}
