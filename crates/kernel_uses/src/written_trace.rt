// A run's trace: it is written of the kernel's history, and whoever has it can verify it.

ghost use Rattle.std.specs.Prelude.{◌≡◌, ◌↔◌, IfOk, length, map};
ghost use Rattle.kernel_uses.specs.Verified.{IsVerdictOn};
ghost use Rattle.machine_drives.specs.Drives.{drive_end};
ghost use Rattle.motion_history.specs.Entries.{cycles_of};
ghost use Rattle.trace_check.specs.Legal.{IsLegalTrace};
ghost use Rattle.trace_text.specs.Trace.{run_version, trace_text};
ghost use Rattle.trace_text.specs.TraceState.{entries_of};
ghost use Rattle.trace_text.specs.declared.command.Command.TheVariants.{Run};
ghost use Rattle.trace_text.specs.writing.Writes.{Writes};

use drive_sim::Drive;
use machine_drives::end_rows;
use motion_history::{OutOfMemory, TextFault, TraceVersion};
use motion_kernel::Kernel;
use outside::Sink;
use std::alloc::Global;
use trace_check::{Trace, Verdict, check, read_trace};
use trace_text::{Command, TraceFault, parts_are_beginnings, trace_version, write_trace};

/// Writes the trace of a run: its machine, each entry of its history, and what its drives took.
pub fn write_run<K: Sink>(
    alloc: Global,
    kernel: &Kernel,
    drives: &[Drive],
    out: &mut K,
) -> Result<(), TraceFault>
    requires each { length drives.now ≡ length kernel.now.config.axes }
    ensures { Writes (record { count = K.count out.old; told = K.told out.old })
        (record { count = K.count out.new; told = K.told out.new })
        (trace_text (run_version kernel.now.config) Run kernel.now.config kernel.now.history
        (map (drive_end (cycles_of kernel.now.history)) drives.now)) result }
{
    // laws
    parts_are_beginnings();
    let Ok(ends) = end_rows(alloc, kernel.cycles_made(), drives) else {
        return Err(TraceFault::OutOfMemory);
    };
    write_trace(
        alloc,
        trace_version(TraceVersion::Two, kernel.config()),
        Command::Run,
        kernel.config(),
        kernel.history(),
        ends.as_slice(),
        out,
    )
}

// The verdict on a trace that was read.
fn verify(alloc: Global, trace: &Trace) -> Result<Verdict, TextFault>
    ensures { IfOk result (λ v.
        (v ≡ Verdict.Legal (length (entries_of trace.now))) ↔ IsLegalTrace trace.now) }
{
    match check(alloc, trace) {
        Ok(verdict) => Ok(verdict),
        Err(OutOfMemory) => Err(TextFault::OutOfMemory),
    }
}

/// Reads a trace, and verifies it: whether its machine made each of its entries, else the first
/// record that differs.
pub fn verify_text(alloc: Global, text: &[u8]) -> Result<Verdict, TextFault>
    ensures { IfOk result (IsVerdictOn text.now) }
{
    match read_trace(alloc, text) {
        Ok(trace) => verify(alloc, &trace),
        Err(fault) => Err(fault),
    }
}
