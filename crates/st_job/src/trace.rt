// A machine is run with its tasks, and its trace written.

ghost use Rattle.std.specs.Prelude.{◌≡◌, IfOk, length, map, true};
ghost use Rattle.job_ends.specs.Causes.{is_traced};
ghost use Rattle.job_ends.specs.Ends.{EndsBy};
ghost use Rattle.machine_drives.specs.Drives.{drive_end};
ghost use Rattle.motion_history.specs.Entries.{cycles_of};
ghost use Rattle.st_rounds.specs.Controllers.{cell_of};
ghost use Rattle.st_job.specs.Again.{IsTracedRun};
ghost use Rattle.st_job.specs.Plans as plans;
ghost use Rattle.st_rounds.specs.Ready.{AreReady};
ghost use Rattle.trace_check.specs.KeptHistories.{IsReadBack};
ghost use Rattle.trace_text.specs.Trace.{run_version, trace_text};
ghost use Rattle.trace_text.specs.writing.Writes.{Writes};

use bench_run::{Ran, RunFault};
use job_ends::{Status, status_by};
use machine_drives::{end_rows, positions_have_32_bits};
use motion_history::TraceVersion;
use outside::Sink;
use st_rounds::{Controller, run_rounds};
use std::alloc::{AllocError, Global};
use trace_check::kept_histories_are_read_back;
use trace_text::{
    Command, DriveEndRow, TraceFault, parts_are_beginnings, trace_version, write_trace,
};

/// Runs a machine with its tasks, and writes its trace.
pub fn run_cell<K: Sink>(alloc: Global, cell: &Controller, out: &mut K) -> Status
    requires ready { AreReady cell.now.config cell.now.code.us cell.now.program.tasks.items }
    ensures ends { EndsBy (record { count = K.count out.old; told = K.told out.old })
        (record { count = K.count out.new; told = K.told out.new })
        (plans.plan_of (cell_of cell.now)) result }
    ensures traced { is_traced result ≡ true → IsTracedRun (cell_of cell.now) }
{
    let Ok(ran) = run_rounds(alloc, cell) else {
        return Status::OutOfMemory;
    };
    // laws
    trace_is_read_back(cell, &ran);
    status_by(status_of(ran.ending), write_run(alloc, cell, &ran, out))
}

// The trace of a run is read as that of its machine, its history and its drives: the kernel keeps
// of its history, and each drive of its position, what a trace asks for. Nothing else runs.
fn trace_is_read_back(cell: &Controller, ran: &Ran)
    requires config { ran.now.kernel.config ≡ cell.now.config }
    requires each { length ran.now.drives.items ≡ length cell.now.config.axes }
    ensures { IsReadBack (run_version cell.now.config) Command.Run cell.now.config
        ran.now.kernel.history
        (map (drive_end (cycles_of ran.now.kernel.history)) ran.now.drives.items) }
{
    // law: the trace of a history that a kernel keeps is read back
    kept_histories_are_read_back();
    let _ = ran.kernel.history();
    positions_have_32_bits(ran.drives.as_slice());
}

// The status that a run ends with.
fn status_of(ending: Result<(), RunFault>) -> Status
    ensures { result ≡ plans.status_of ending }
{
    match ending {
        Ok(()) => Status::Ok,
        Err(RunFault::CyclesOver) => Status::CyclesOver,
        Err(RunFault::HistoryFull) => Status::HistoryFull,
    }
}

// Writes the trace of a run.
fn write_run<K: Sink>(
    alloc: Global,
    cell: &Controller,
    ran: &Ran,
    out: &mut K,
) -> Result<(), TraceFault>
    requires config { ran.now.kernel.config ≡ cell.now.config }
    requires each { length ran.now.drives.items ≡ length cell.now.config.axes }
    ensures { Writes (record { count = K.count out.old; told = K.told out.old })
        (record { count = K.count out.new; told = K.told out.new })
        (trace_text (run_version cell.now.config) Command.Run cell.now.config ran.now.kernel.history
        (map (drive_end (cycles_of ran.now.kernel.history)) ran.now.drives.items)) result }
{
    // laws
    parts_are_beginnings();
    let history = ran.kernel.history();
    let Ok(drives) = ends_of(alloc, ran) else {
        return Err(TraceFault::OutOfMemory);
    };
    write_trace(
        alloc,
        trace_version(TraceVersion::Two, &cell.config),
        Command::Run,
        &cell.config,
        history,
        drives.as_slice(),
        out,
    )
}

// How the drives of a run ended.
fn ends_of(alloc: Global, ran: &Ran) -> Result<Vec<DriveEndRow>, AllocError>
    ensures { IfOk result (λ rows. rows.items ≡
        map (drive_end (cycles_of ran.now.kernel.history)) ran.now.drives.items) }
{
    end_rows(alloc, ran.kernel.cycles_made(), ran.drives.as_slice())
}
