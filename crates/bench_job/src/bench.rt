// A bench is run, and its trace written.

ghost use Rattle.std.specs.Prelude.{◌≡◌, IfOk, length, map};
ghost use Rattle.bench_job.specs.Again.{ReadsAgain, version_of};
ghost use Rattle.bench_job.specs.Ends.{EndsByBench};
ghost use Rattle.bench_job.specs.Headline.{RunsBy};
ghost use Rattle.bench_job.specs.Plans as plans;
ghost use Rattle.bench_job.specs.Plans.{plan_of_bench};
ghost use Rattle.job_ends.specs.Ends.{EndsBy};
ghost use Rattle.machine_drives.specs.Drives.{drive_end};
ghost use Rattle.motion_history.specs.Entries.{cycles_of};
ghost use Rattle.trace_text.specs.Trace.{trace_text};
ghost use Rattle.trace_text.specs.writing.Writes.{Writes};

use bench_run::{Ran, RunFault, run, runs_are_in_step};
use bench_text::{Bench, read_bench};
use job_ends::{Status, say_refused, status_by};
use machine_drives::{end_rows, positions_have_32_bits};
use motion_history::TextFault;
use outside::Sink;
use std::alloc::{AllocError, Global};
use trace_check::kept_histories_are_read_back;
use trace_text::{
    Command, DriveEndRow, TraceFault, parts_are_beginnings, trace_version, write_trace,
};

/// Runs the bench that a text is, and writes its trace. Where a number of events is given, a
/// standby follows the kernel for this many and then takes its place: the status and the trace are
/// the same.
pub fn run_text<K: Sink>(
    alloc: Global,
    name: &str,
    text: &[u8],
    cut: Option<u32>,
    out: &mut K,
) -> Status
    ensures { EndsByBench name.now text.now
        (record { count = K.count out.old; told = K.told out.old })
        (record { count = K.count out.new; told = K.told out.new }) result }
{
    // laws
    runs_are_in_step();
    match read_bench(alloc, text) {
        Ok(bench) => run_bench(alloc, &bench, cut, out),
        Err(TextFault::Refused(refused)) => say_refused(alloc, 1, name, &refused, out),
        Err(TextFault::OutOfMemory) => Status::OutOfMemory,
    }
}

// Runs a bench, and writes its trace.
fn run_bench<K: Sink>(alloc: Global, bench: &Bench, cut: Option<u32>, out: &mut K) -> Status
    ensures runs { RunsBy (λ b. b ≡ bench.now) result }
    ensures ends { EndsBy (record { count = K.count out.old; told = K.told out.old })
        (record { count = K.count out.new; told = K.told out.new })
        (plan_of_bench bench.now) result }
{
    let Ok(ran) = run(alloc, bench, cut) else {
        return Status::OutOfMemory;
    };
    // laws
    trace_is_read_again(bench, &ran);
    status_by(status_of(ran.ending), write_run(alloc, bench, &ran, out))
}

// The trace of a run is read as that of its machine, its history and its drives: the kernel keeps
// of its history, and each drive of its position, what a trace asks for. Nothing else runs.
fn trace_is_read_again(bench: &Bench, ran: &Ran)
    requires config { ran.now.kernel.config ≡ bench.now.config }
    requires each { length ran.now.drives.items ≡ length bench.now.config.axes }
    ensures { ReadsAgain bench.now ran.now.kernel.history
        (map (drive_end (cycles_of ran.now.kernel.history)) ran.now.drives.items) }
{
    // law: the trace of a history that a kernel keeps is read back
    kept_histories_are_read_back();
    let _ = bench.config();
    let _ = ran.kernel.history();
    positions_have_32_bits(ran.drives.as_slice());
}

// The status that a run ends with.
fn status_of(ending: Result<(), RunFault>) -> Status
    ensures { result ≡ plans.status_of ending }
{
    match ending {
        Ok(()) => Status::Ok,
        Err(RunFault::CyclesOver) => Status::CyclesOver,
        Err(RunFault::HistoryFull) => Status::HistoryFull,
    }
}

// Writes the trace of a bench that was run.
fn write_run<K: Sink>(
    alloc: Global,
    bench: &Bench,
    ran: &Ran,
    out: &mut K,
) -> Result<(), TraceFault>
    requires config { ran.now.kernel.config ≡ bench.now.config }
    requires each { length ran.now.drives.items ≡ length bench.now.config.axes }
    ensures { Writes (record { count = K.count out.old; told = K.told out.old })
        (record { count = K.count out.new; told = K.told out.new })
        (trace_text (version_of bench.now) Command.Bench bench.now.config ran.now.kernel.history
        (map (drive_end (cycles_of ran.now.kernel.history)) ran.now.drives.items)) result }
{
    // laws
    parts_are_beginnings();
    let history = ran.kernel.history();
    let Ok(drives) = ends_of(alloc, ran) else {
        return Err(TraceFault::OutOfMemory);
    };
    write_trace(
        alloc,
        trace_version(bench.version(), bench.config()),
        Command::Bench,
        bench.config(),
        history,
        drives.as_slice(),
        out,
    )
}

// How the drives of a run ended.
fn ends_of(alloc: Global, ran: &Ran) -> Result<Vec<DriveEndRow>, AllocError>
    ensures { IfOk result (λ rows. rows.items ≡
        map (drive_end (cycles_of ran.now.kernel.history)) ran.now.drives.items) }
{
    end_rows(alloc, ran.kernel.cycles_made(), ran.drives.as_slice())
}
