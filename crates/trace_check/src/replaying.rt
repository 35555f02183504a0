// The replay of a whole trace.

ghost use Rattle.std.specs.Prelude.{◌≡◌, ◌+◌, ◌≤◌, [], IfOk, length};
ghost use Rattle.trace_text.specs.Trace.{machine_records};
ghost use Rattle.trace_text.specs.declared.command.Command.{Command};
ghost use Rattle.motion_history.specs.declared.refused.TraceVersion.{TraceVersion};
ghost use Rattle.motion_kernel.specs.Segments.{at_opening};
ghost use Rattle.trace_text.specs.Held.{IsHeldOf};
ghost use Rattle.trace_text.specs.TraceKept.{IsTraceKept};
ghost use Rattle.trace_text.specs.TraceState.{TraceState};
ghost use Rattle.trace_check.specs.Progress.{EntriesReplay};
ghost use Rattle.trace_check.specs.Outcomes.{IsBehind, IsReplayed, IsReplayedFrom, Judges};

use crate::difference::{Difference, Stop};
use crate::drives::check_drives;
use crate::entry::replay_entry;
use motion_history::{Config, MOST_ENTRIES, OutOfMemory};
use motion_kernel::SegmentedKernel;
use std::alloc::Global;
use trace_text::Trace;

/// A trace that was replayed.
#[derive(Drop)]
pub enum Replayed {
    /// It is legal: the kernel has its history, the offsets of the rows too.
    Legal(SegmentedKernel),
    /// The first record that differs.
    IllegalAt(Difference),
}

// The number of the first record after the machine part.
fn first_place(config: &Config) -> u64
    ensures place { (v : TraceVersion) (c : Command) →
        result ≡ length (machine_records v c config.now) + 1 }
    ensures small { result ≤ 2000 }
    ensures room { config.now.entries ≤ MOST_ENTRIES }
{
    3 + config.axes().len() as u64
        + config.groups().len() as u64
        + config.tables().len() as u64
        + config.tasks().len() as u64
        + config.blocks().len() as u64
}

// Replays all entries, and answers the number of the first record after them.
fn replay_entries(alloc: Global, trace: &Trace, kernel: &mut SegmentedKernel) -> Result<u64, Stop>
    requires kept { IsTraceKept trace.now }
    requires config { kernel.old.config ≡ trace.now.config }
    requires empty { kernel.old.history ≡ [] }
    ensures replay { EntriesReplay trace.now kernel.old.start kernel.new result }
    ensures before { IfOk result (λ place. kernel.new.before ≡ kernel.old.before) }
{
    let mut place = first_place(trace.config());
    for entry in 0..trace.entries() {
        match replay_entry(alloc, trace, entry, place, kernel) {
            Ok(records) => place += records,
            Err(stop) => return Err(stop),
        }
    }
    Ok(place)
}

// Replays a trace on a kernel up to the first record that differs.
fn kernel_of(
    alloc: Global,
    trace: &Trace,
    mut kernel: SegmentedKernel,
) -> Result<SegmentedKernel, Stop>
    requires config { kernel.config ≡ trace.now.config }
    requires empty { kernel.history ≡ [] }
    ensures verifies { (whole : TraceState) → IsHeldOf whole trace.now →
        Judges kernel.start whole result }
    ensures before { IfOk result (λ k. k.before ≡ kernel.before) }
{
    // Its entries are as they are read.
    let _ = trace.entries();
    let place = match replay_entries(alloc, trace, &mut kernel) {
        Ok(place) => place,
        Err(stop) => return Err(stop),
    };
    let _ = kernel.history();
    match check_drives(alloc, trace, kernel.cycles_made(), place) {
        Ok(()) => Ok(kernel),
        Err(stop) => Err(stop),
    }
}

/// Replays a trace from where a kernel of its configuration begins, one entry at a time, the
/// answers of the drives being given. It takes memory for two records where they differ. What is
/// reported is so of each trace of which this is what is held.
pub fn replay_from(
    alloc: Global,
    trace: &Trace,
    kernel: SegmentedKernel,
) -> Result<Replayed, OutOfMemory>
    requires config { kernel.config ≡ trace.now.config }
    requires empty { kernel.history ≡ [] }
    ensures replay { IfOk result (IsReplayedFrom kernel.start trace.now) }
    ensures held { (whole : TraceState) → IsHeldOf whole trace.now →
        IfOk result (IsReplayedFrom kernel.start whole) }
    ensures before { IfOk result (IsBehind kernel.before) }
{
    match kernel_of(alloc, trace, kernel) {
        Ok(kernel) => Ok(Replayed::Legal(kernel)),
        Err(Stop::Differs(difference)) => Ok(Replayed::IllegalAt(difference)),
        Err(Stop::OutOfMemory) => Err(OutOfMemory),
    }
}

/// A kernel of a trace's configuration, at opening.
pub fn open_kernel(alloc: Global, trace: &Trace) -> Result<SegmentedKernel, OutOfMemory>
    ensures { IfOk result (λ k. k ≡ at_opening trace.now.config) }
{
    let config = trace.config().copy(alloc)?;
    SegmentedKernel::open(alloc, config)
}

/// Replays a trace on a kernel of its configuration, from opening on. It takes memory for the
/// kernel, and for two records where they differ.
pub fn replay(alloc: Global, trace: &Trace) -> Result<Replayed, OutOfMemory>
    ensures replay { IfOk result (IsReplayed trace.now) }
    ensures held { (whole : TraceState) → IsHeldOf whole trace.now →
        IfOk result (IsReplayed whole) }
{
    let kernel = open_kernel(alloc, trace)?;
    replay_from(alloc, trace, kernel)
}
