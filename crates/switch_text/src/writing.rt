// Writing the edges of switches in a trace.

ghost use Rattle.std.specs.Prelude.{◌≡◌, ◌≤◌, ◌<◌, ◌+◌, ◌^◌, IfOk, OnOk, List, map, length, take};
ghost use Rattle.switch_text.specs.Watches.{watch_of};
ghost use Rattle.switch_text.specs.declared.switch.Switch.{Switch};
ghost use Rattle.switch_text.specs.Lines as spec;
ghost use Rattle.switch_text.specs.UnderWay.{IsBehind};
ghost use Rattle.trace_text.specs.TraceState.{entries_of};
ghost use Rattle.trace_text.specs.writing.Writes.{Writes};

use crate::laws::watches_go_on;
use crate::lines::push_cycle;
use crate::switch::Switch;
use crate::switches::Switches;
use crate::watch::Watch;
use motion_history::{EntryLook, OutOfMemory};
use outside::{Sink, write_all};
use std::alloc::{AllocError, Global};
use trace_text::{Trace, TraceFault, parts_are_beginnings};

/// Writes the edges of switches in the cycles of a trace: one line `NAME CYCLE on` or `NAME CYCLE
/// off` per edge, by cycle, counted from 1, and then in the order of the switches. Where they
/// aren't written whole, their first bytes are. It takes memory for all of them.
pub fn write_edges<K: Sink>(
    alloc: Global,
    switches: &Switches,
    trace: &Trace,
    out: &mut K,
) -> Result<(), TraceFault>
    ensures { Writes (record { count = K.count out.old; told = K.told out.old })
        (record { count = K.count out.new; told = K.told out.new })
        (spec.edges_text switches.now (spec.cycles_in (entries_of trace.now))) result }
{
    // laws
    parts_are_beginnings();
    match edges_text(alloc, switches, trace) {
        Ok(text) => write_text(text.as_slice(), out),
        Err(OutOfMemory) => Err(TraceFault::OutOfMemory),
    }
}

// Writes a text.
fn write_text<K: Sink>(text: &[u8], out: &mut K) -> Result<(), TraceFault>
    ensures { Writes (record { count = K.count out.old; told = K.told out.old })
        (record { count = K.count out.new; told = K.told out.new }) text.now result }
{
    // laws
    parts_are_beginnings();
    match write_all(out, text) {
        Ok(()) => Ok(()),
        Err(_) => Err(TraceFault::WriteFault),
    }
}

/// Switches after some cycles, and the lines of their edges there.
#[derive(Drop)]
struct EdgeLog {
    watches: Vec<Watch>,
    cycles: u64,
    text: Vec<u8>,
}

// Switches before the first cycle.
fn watches_of(alloc: Global, switches: &[Switch]) -> Result<Vec<Watch>, AllocError>
    ensures { IfOk result (λ v. v.items ≡ map watch_of switches.now) }
{
    switches
        .iter()
        .map(|switch| Watch::new(*switch))
        .collect(alloc)
}

// Goes on by an entry of a trace, if it is a cycle.
fn take_entry(log: &mut EdgeLog, trace: &Trace, place: u64) -> Result<(), AllocError>
    requires few { log.old.cycles ≤ place }
    requires room { place + 1 < 2 ^ 64 }
    ensures behind { (ss : List Switch) →
        IsBehind ss (entries_of trace.now) place log.old →
        OnOk result (IsBehind ss (entries_of trace.now) (place + 1) log.new) }
    ensures few { OnOk result (log.new.cycles ≤ place + 1) }
{
    // laws
    watches_go_on();
    match trace.look(place) {
        Some(EntryLook::Cycle { axes, .. }) => {
            log.cycles += 1;
            push_cycle(log.watches.as_mut_slice(), axes, log.cycles, &mut log.text)?;
            Ok(())
        }
        Some(EntryLook::Call { .. }) => Ok(()),
        Some(EntryLook::End { .. }) => Ok(()),
        None => Ok(()),
    }
}

// The lines of the edges of switches in a trace.
fn edges_text(alloc: Global, switches: &Switches, trace: &Trace) -> Result<Vec<u8>, OutOfMemory>
    ensures { IfOk result (λ v. v.items ≡
        spec.edges_text switches.now (spec.cycles_in (entries_of trace.now))) }
{
    // laws
    watches_go_on();
    let mut log = EdgeLog {
        watches: watches_of(alloc, switches.list())?,
        cycles: 0,
        text: Vec::new(alloc),
    };
    for place in 0..trace.entries() {
        take_entry(&mut log, trace, place)?;
    }
    Ok(log.text)
}
