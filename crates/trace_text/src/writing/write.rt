// Writing a trace.

ghost use Rattle.std.specs.Prelude.{◌≡◌, ◌+◌, ◌<◌, ◌^◌, length, take, drop};
ghost use Rattle.std.specs.List.{flat_map};
ghost use Rattle.trace_text.specs.writing.Writes.{Output, Writes, WritesPiece};
ghost use Rattle.trace_text.specs.writing.Parts.{all_text, machine_text, drives_text, entry_text};
ghost use Rattle.trace_text.specs.Trace.{CanHold, trace_text};

use crate::command::Command;
use crate::drive_end::DriveEndRow;
use crate::writing::pieces::{drives_piece, entries_piece, machine_piece};
use motion_history::{Config, History, OutOfMemory, TraceVersion};
use outside::{Sink, SinkFailed, write_all};
use std::alloc::Global;

/// Why a trace isn't written whole.
#[derive(Clone, Copy, Debug, PartialEq, Eq)]
pub enum TraceFault {
    WriteFault,
    OutOfMemory,
}

/// How many entries are written at a time.
const PIECE: u64 = 200;

// Puts a piece of a text into the output, if there was memory for it.
fn put<K: Sink>(piece: Result<Vec<u8>, OutOfMemory>, out: &mut K) -> Result<(), TraceFault>
    ensures { WritesPiece (record { count = K.count out.old; told = K.told out.old })
        (record { count = K.count out.new; told = K.told out.new }) piece result }
{
    match piece {
        Ok(text) => match write_all(out, text.as_slice()) {
            Ok(()) => Ok(()),
            Err(SinkFailed) => Err(TraceFault::WriteFault),
        },
        Err(OutOfMemory) => Err(TraceFault::OutOfMemory),
    }
}

// Writes the machine part.
fn put_machine<K: Sink>(
    alloc: Global,
    version: TraceVersion,
    command: Command,
    config: &Config,
    out: &mut K,
) -> Result<(), TraceFault>
    ensures { Writes (record { count = K.count out.old; told = K.told out.old })
        (record { count = K.count out.new; told = K.told out.new })
        (machine_text version command config.now) result }
{
    put(machine_piece(alloc, version, command, config), out)
}

// Writes what the drives took.
fn put_drives<K: Sink>(
    alloc: Global,
    config: &Config,
    drives: &[DriveEndRow],
    out: &mut K,
) -> Result<(), TraceFault>
    ensures { Writes (record { count = K.count out.old; told = K.told out.old })
        (record { count = K.count out.new; told = K.told out.new })
        (drives_text config.now drives.now) result }
{
    put(drives_piece(alloc, config, drives), out)
}

// Writes this many entries from a place on.
fn put_entries<K: Sink>(
    alloc: Global,
    version: TraceVersion,
    config: &Config,
    history: &History,
    from: u64,
    count: u64,
    out: &mut K,
) -> Result<(), TraceFault>
    requires { from + count < 2 ^ 64 }
    ensures { Writes (record { count = K.count out.old; told = K.told out.old })
        (record { count = K.count out.new; told = K.told out.new })
        (flat_map (entry_text version config.now) (take count (drop from history.now.entries)))
        result }
{
    put(
        entries_piece(alloc, version, config, history, from, count),
        out,
    )
}

// Writes all entries, a piece at a time.
fn put_history<K: Sink>(
    alloc: Global,
    version: TraceVersion,
    config: &Config,
    history: &History,
    out: &mut K,
) -> Result<(), TraceFault>
    ensures { Writes (record { count = K.count out.old; told = K.told out.old })
        (record { count = K.count out.new; told = K.told out.new })
        (flat_map (entry_text version config.now) history.now.entries) result }
{
    let entries = history.entries();
    for piece in 0..entries / PIECE + 1 {
        let from = piece * PIECE;
        let count = (entries - from).min(PIECE);
        match put_entries(alloc, version, config, history, from, count, out) {
            Ok(()) => {}
            Err(fault) => return Err(fault),
        }
    }
    Ok(())
}

// Writes all parts of the trace.
fn put_all<K: Sink>(
    alloc: Global,
    version: TraceVersion,
    command: Command,
    config: &Config,
    history: &History,
    drives: &[DriveEndRow],
    out: &mut K,
) -> Result<(), TraceFault>
    ensures { Writes (record { count = K.count out.old; told = K.told out.old })
        (record { count = K.count out.new; told = K.told out.new })
        (all_text version command config.now history.now.entries drives.now) result }
{
    match put_machine(alloc, version, command, config, out) {
        Ok(()) => {}
        Err(fault) => return Err(fault),
    }
    match put_history(alloc, version, config, history, out) {
        Ok(()) => {}
        Err(fault) => return Err(fault),
    }
    put_drives(alloc, config, drives, out)
}

/// Writes the trace of a history of this configuration and of what its drives took, one item per
/// axis. Version One gives no braking limit: each is the axis's `amax`. Where the trace isn't
/// written whole, its first bytes are.
#[tactic(auto, using(crate::proofs::written::Texts::trace_parts))]
pub fn write_trace<K: Sink>(
    alloc: Global,
    version: TraceVersion,
    command: Command,
    config: &Config,
    history: &History,
    drives: &[DriveEndRow],
    out: &mut K,
) -> Result<(), TraceFault>
    requires version { CanHold version config.now }
    requires drives { length drives.now ≡ length config.now.axes }
    ensures { Writes (record { count = K.count out.old; told = K.told out.old })
        (record { count = K.count out.new; told = K.told out.new })
        (trace_text version command config.now history.now.entries drives.now) result }
{
    put_all(alloc, version, command, config, history, drives, out)
}
