// What the drives took, compared with the cycles that were made.

ghost use Rattle.std.specs.Prelude.{◌≡◌, ◌+◌, ◌<◌, ◌^◌, IfOk, OnOk, length, map};
ghost use Rattle.trace_text.specs.Trace.{drive_records};
ghost use Rattle.trace_text.specs.Records.{drive_fields, padded};
ghost use Rattle.trace_check.specs.Replays.{with_taken};
ghost use Rattle.trace_check.specs.Stops.{Compares, StopsAt, Tells};

use crate::difference::{Stop, differing};
use crate::record::Record;
use itoa::Buffer;
use motion_history::{Config, OutOfMemory, axis_name, name_text};
use std::alloc::Global;
use trace_columns::drive_state_text;
use trace_text::{DriveEndRow, Trace};

// The record of what the drive of an axis took.
fn drive_record(
    alloc: Global,
    config: &Config,
    axis: usize,
    drive: &DriveEndRow,
) -> Result<Record, OutOfMemory>
    ensures { IfOk result (λ r. r ≡ padded (drive_fields config.now axis drive.now)) }
{
    let name = axis_name(config, axis);
    let mut taken = Buffer::new();
    let mut actual = Buffer::new();
    Record::new(
        alloc,
        &[
            b"drive",
            name_text(&name),
            taken.format(drive.taken).as_bytes(),
            drive_state_text(drive.state).as_bytes(),
            actual.format(drive.actual).as_bytes(),
            b"",
            b"",
            b"",
            b"",
            b"",
            b"",
            b"",
        ],
    )
}

// What a drive took, with a setpoint in each of this many cycles.
fn taken_in(cycles: u32, drive: &DriveEndRow) -> DriveEndRow
    ensures { result ≡ with_taken cycles drive.now }
{
    DriveEndRow {
        taken: cycles,
        ..*drive
    }
}

// The drive of an axis took another number of setpoints.
fn wrong_drive(
    alloc: Global,
    config: &Config,
    axis: usize,
    drive: &DriveEndRow,
    cycles: u32,
    place: u64,
) -> Stop
    ensures { Tells place (padded (drive_fields config.now axis (with_taken cycles drive.now)))
        (padded (drive_fields config.now axis drive.now)) result }
{
    let Ok(expected) = drive_record(alloc, config, axis, &taken_in(cycles, drive)) else {
        return Stop::OutOfMemory;
    };
    let Ok(found) = drive_record(alloc, config, axis, drive) else {
        return Stop::OutOfMemory;
    };
    differing(place, expected, found)
}

/// Whether each drive took a setpoint in each of this many cycles, from a place on.
pub fn check_drives(alloc: Global, trace: &Trace, cycles: u32, place: u64) -> Result<(), Stop>
    requires { place + length trace.now.drives < 2 ^ 64 }
    ensures compared { Compares place
        (drive_records trace.now.config (map (with_taken cycles) trace.now.drives))
        (drive_records trace.now.config trace.now.drives) result }
    ensures taken { OnOk result
        (map (with_taken cycles) trace.now.drives ≡ trace.now.drives) }
{
    let drives = trace.drives();
    for i in 0..drives.len() {
        if drives[i].taken != cycles {
            let place = place + i as u64;
            return Err(wrong_drive(alloc, trace.config(), i, &drives[i], cycles, place));
        }
    }
    Ok(())
}
