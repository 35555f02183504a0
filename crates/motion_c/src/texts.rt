// The texts of a segment: a trace, and a trace segment of one.

ghost use Rattle.std.specs.Prelude.{◌≡◌, ◌↔◌, ◌++◌, ◌∷◌, [], All, IfOk, IfSome, IsTrue, length, map};
ghost use Rattle.motion_c.specs.Traces.{IsTraceSegmentOf, IsTraceOf, IsTraceVersion, segment_trace, end_of_drive};
ghost use Rattle.outside.specs.MemorySink.{bytes_of};
ghost use Rattle.segment_text.specs.TraceSegment as trace_segment;
ghost use Rattle.trace_text.specs.Trace.{CanHold};

use crate::machine::Machine;
use cia402_machine::state_of;
use motion_history::{AxisDef, Config, TraceVersion};
use motion_kernel::SegmentedKernel;
use outside::{MemorySink, write_all};
use plc_types::{DriveIn, DriveState};
use segment_text::header_text;
use std::alloc::{AllocError, Global};
use trace_text::{Command, DriveEndRow, trace_version, write_trace};

/// The trace of a machine, if there is memory for it.
pub fn trace_written(alloc: Global, machine: &Machine, answers: &[DriveIn]) -> Option<MemorySink>
    requires { length answers.now ≡ length machine.now.kernel.kernel.config.axes }
    ensures { IfSome result (λ t. IsTraceOf machine.now answers.now (bytes_of t)) }
{
    let segment = machine.kernel.segment();
    let version = version_of(machine.version, segment.config());
    let trace = MemorySink::new(alloc, &[], u32::MAX).ok()?;
    with_trace(alloc, version, segment, answers, trace)
}

/// The trace segment that a segment is, if there is memory for it.
#[tactic(auto, unfolding(segment_text::specs::TraceSegment::segment_text))]
pub fn trace_segment_written(
    alloc: Global,
    segment: &SegmentedKernel,
    answers: &[DriveIn],
) -> Option<MemorySink>
    requires { length answers.now ≡ length segment.now.config.axes }
    ensures { IfSome result (λ t. IsTraceSegmentOf segment.now answers.now (bytes_of t)) }
{
    let header = header_written(alloc, segment)?;
    let version = trace_version(TraceVersion::Two, segment.config());
    with_trace(alloc, version, segment, answers, header)
}

// The header of the trace segment that a segment is, and the blank line after it, if there is
// memory for them.
fn header_written(alloc: Global, segment: &SegmentedKernel) -> Option<MemorySink>
    ensures { IfSome result (λ t. bytes_of t ≡
        trace_segment.header_text segment.now.before segment.now.start ++ 10 ∷ []) }
{
    let mut header = header_text(alloc, segment.config(), &segment.before(), segment.start()).ok()?;
    header.push(b'\n').ok()?;
    let mut out = MemorySink::new(alloc, &[], u32::MAX).ok()?;
    write_all(&mut out, header.as_slice()).ok()?;
    Some(out)
}

// A text with the trace of a segment after it, if there is memory for it.
fn with_trace(
    alloc: Global,
    version: TraceVersion,
    segment: &SegmentedKernel,
    answers: &[DriveIn],
    mut text: MemorySink,
) -> Option<MemorySink>
    requires version { CanHold version segment.now.config }
    requires length { length answers.now ≡ length segment.now.config.axes }
    ensures { IfSome result (λ t. bytes_of t ≡
        bytes_of text ++ segment_trace version segment.now answers.now) }
{
    let drives = ends(alloc, segment.cycles_made(), answers).ok()?;
    let done = write_trace(
        alloc,
        version,
        Command::Bench,
        segment.config(),
        segment.history(),
        drives.as_slice(),
        &mut text,
    );
    match done {
        Ok(()) => Some(text),
        Err(_) => None,
    }
}

// The version of a machine's trace, by that of the text that opened it.
fn version_of(opened: TraceVersion, config: &Config) -> TraceVersion
    ensures version { IsTraceVersion opened config.now result }
    ensures holds { CanHold result config.now }
{
    match opened {
        TraceVersion::One => least_version(config),
        TraceVersion::Two => trace_version(TraceVersion::Two, config),
        TraceVersion::Three => trace_version(TraceVersion::Three, config),
    }
}

// The first version that can hold a machine.
fn least_version(config: &Config) -> TraceVersion
    ensures version { IsTraceVersion TraceVersion.One config.now result }
    ensures holds { CanHold result config.now }
{
    if brake_as_they_speed_up(config.axes()) {
        trace_version(TraceVersion::One, config)
    } else {
        trace_version(TraceVersion::Two, config)
    }
}

// Whether each axis brakes as hard as it speeds up.
fn brake_as_they_speed_up(axes: &[AxisDef]) -> bool
    ensures { IsTrue result ↔ All (λ d. d.limits.dmax ≡ d.limits.amax) axes.now }
{
    axes.iter().all(|axis| axis.limits.dmax == axis.limits.amax)
}

// What a drive took, by its last answer.
fn end_of(cycles: u32, answer: &DriveIn) -> DriveEndRow
    ensures { result ≡ end_of_drive cycles answer.now }
{
    DriveEndRow {
        taken: cycles,
        state: state_of(answer.statusword).unwrap_or(DriveState::NotReady),
        actual: answer.actual,
    }
}

// What the drives took, by their last answers.
fn ends(alloc: Global, cycles: u32, answers: &[DriveIn]) -> Result<Vec<DriveEndRow>, AllocError>
    ensures { IfOk result (λ v. v.items ≡ map (end_of_drive cycles) answers.now) }
{
    answers
        .iter()
        .map(|answer| end_of(cycles, answer))
        .collect(alloc)
}
