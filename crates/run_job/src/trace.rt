// The trace of a run is written.

ghost use Rattle.std.specs.Prelude.{◌≡◌, ◌≢◌, ◌≤◌, ◌-◌, ◌^◌, ◌≤ℤ◌, neg_ℤ, pos, All, IfOk, length, map};
ghost use Rattle.motion_plant.specs.Ran.{EndsSo};
ghost use Rattle.run_job.specs.Ends.{WritesTrace};
ghost use Rattle.run_job.specs.Plans as plans;
ghost use Rattle.trace_check.specs.KeptHistories.{IsReadBack};
ghost use Rattle.trace_text.specs.RowRanges.{IsDriveEnd};
ghost use Rattle.trace_text.specs.Trace.{trace_version, trace_text};
ghost use Rattle.trace_text.specs.writing.Writes.{Writes};

use cia402_machine::state_of;
use job_ends::{Status, status_by};
use motion_history::TraceVersion;
use motion_plant::{PlantEnd, RunEnding, ending_of};
use outside::Sink;
use plc_types::DriveState;
use setpoint_ring::DriveLog;
use std::alloc::{AllocError, Global};
use trace_check::kept_histories_are_read_back;
use trace_text::{Command, DriveEndRow, TraceFault, trace_version, write_trace};

/// Writes the trace of a plant's run for a configuration of this version, and answers how the run
/// ended.
pub fn write_run<K: Sink>(
    alloc: Global,
    version: TraceVersion,
    end: &PlantEnd,
    out: &mut K,
) -> Status
    requires version { version ≢ TraceVersion.One }
    requires ends { EndsSo end.now.kernel.config end.now.kernel.history }
    requires each { length end.now.drives.items ≡ length end.now.kernel.config.axes }
    ensures { WritesTrace version end.now.kernel.config end.now.kernel.history end.now.drives.items
        (record { count = K.count out.old; told = K.told out.old })
        (record { count = K.count out.new; told = K.told out.new }) result }
{
    let status = status_of(ending_of(&end.kernel));
    let Ok(rows) = end_rows(alloc, end.drives.as_slice()) else {
        return Status::OutOfMemory;
    };
    let taken = rows.as_slice();
    // laws
    trace_is_read_back(version, end, taken);
    let written = write_rows(alloc, version, end, taken, out);
    status_by(status, written)
}

// The trace of a run is read as that of its machine, its history and its drives: the kernel keeps
// of its history, and a row of what its drive took, what a trace asks for. Nothing else runs.
fn trace_is_read_back(version: TraceVersion, end: &PlantEnd, rows: &[DriveEndRow])
    requires version { version ≢ TraceVersion.One }
    requires each { length rows.now ≡ length end.now.kernel.config.axes }
    ensures { IsReadBack (trace_version version end.now.kernel.config) Command.Run end.now.kernel.config
        end.now.kernel.history
        rows.now }
{
    // law: the trace of a history that a kernel keeps is read back
    kept_histories_are_read_back();
    let _ = end.kernel.history();
    rows_have_their_bits(rows);
}

// How many setpoints a drive took: a number of 32 bits.
fn taken_of(row: &DriveEndRow) -> u32
    ensures same { result ≡ row.now.taken }
    ensures bits { row.now.taken ≤ 2 ^ 32 - 1 }
{
    row.taken
}

// Where a drive is: a position of 32 bits.
fn position_of(row: &DriveEndRow) -> i32
    ensures same { result ≡ row.now.actual }
    ensures least { neg_ℤ (pos (2 ^ 31)) ≤ℤ row.now.actual }
    ensures most { row.now.actual ≤ℤ pos (2 ^ 31 - 1) }
{
    row.actual
}

// A row has numbers of the bits of their types.
fn has_its_bits(row: &DriveEndRow)
    ensures { IsDriveEnd row.now }
{
    let _ = taken_of(row);
    let _ = position_of(row);
}

// What the drives took has numbers of the bits of their types.
fn rows_have_their_bits(rows: &[DriveEndRow])
    ensures { All IsDriveEnd rows.now }
{
    for row in rows {
        has_its_bits(row);
    }
}

// Writes the trace of a run with what its drives took.
fn write_rows<K: Sink>(
    alloc: Global,
    version: TraceVersion,
    end: &PlantEnd,
    rows: &[DriveEndRow],
    out: &mut K,
) -> Result<(), TraceFault>
    requires version { version ≢ TraceVersion.One }
    requires each { length rows.now ≡ length end.now.kernel.config.axes }
    ensures { Writes (record { count = K.count out.old; told = K.told out.old })
        (record { count = K.count out.new; told = K.told out.new })
        (trace_text (trace_version version end.now.kernel.config) Command.Run end.now.kernel.config
        end.now.kernel.history
        rows.now) result }
{
    let history = end.kernel.history();
    write_trace(
        alloc,
        trace_version(version, end.kernel.config()),
        Command::Run,
        end.kernel.config(),
        history,
        rows,
        out,
    )
}

// The status that a run ends with.
fn status_of(ending: RunEnding) -> Status
    ensures { result ≡ plans.status_of ending }
{
    match ending {
        RunEnding::Ok => Status::Ok,
        RunEnding::CyclesOver => Status::CyclesOver,
        RunEnding::HistoryFull => Status::HistoryFull,
    }
}

// What a drive took, by its log.
fn end_row(log: &DriveLog) -> DriveEndRow
    ensures { result ≡ plans.end_row log.now }
{
    DriveEndRow {
        taken: log.taken,
        state: state_of(log.last.statusword).unwrap_or(DriveState::NotReady),
        actual: log.last.actual,
    }
}

// What each drive took, by its log.
fn end_rows(alloc: Global, logs: &[DriveLog]) -> Result<Vec<DriveEndRow>, AllocError>
    ensures { IfOk result (λ v. v.items ≡ map plans.end_row logs.now) }
{
    logs.iter().map(end_row).collect(alloc)
}
