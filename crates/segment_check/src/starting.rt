// The kernel that begins where a trace segment does.

ghost use Rattle.std.specs.Prelude.{◌≡◌, ◌↔◌, ◌∷◌, [], IfOk, IsTrue, None};
ghost use Rattle.motion_kernel.specs.Segments.{at_opening};
ghost use Rattle.motion_kernel.specs.Machine.{machine_at_opening};
ghost use Rattle.motion_kernel.specs.declared.segment.Before as spec;
ghost use Rattle.motion_kernel.specs.kept.Machine.{IsMachineKept, IsSized};
ghost use Rattle.segment_check.specs.Begun.{Begins};
ghost use Rattle.segment_check.specs.Flaws.{AreInState, HaveStates, IsFirst, IsFirstOrLater, IsFlawOf, IsFree, machine_flaws};
ghost use Rattle.segment_check.specs.declared.flaw.Flaw.TheVariants as flaw;

use crate::counting::counts_fit;
use crate::filling::{set_axes, set_groups, set_instances, set_waiting};
use crate::flaw::Flaw;
use crate::orders::have_all_orders;
use crate::steered::are_steered;
use kernel_invariants::{
    are_axes_in_state, are_commands_shown, are_groups_in_state, have_kinds_of_blocks,
    have_owners_blocks, is_machine_kept,
};
use motion_history::Config;
use motion_kernel::{Before, SegmentedKernel, Start};
use segment_text::{MachineText, TraceSegment, header_text};
use std::alloc::Global;
use trace_check::OutOfMemory;

/// The kernel that begins where a trace segment does, exactly where a machine of its configuration
/// may begin so; else the first flaw of its header. It takes the memory of a kernel and of a second
/// segment, and where the trace segment is the first that of two headers.
pub fn kernel_of(
    alloc: Global,
    trace_segment: &TraceSegment,
) -> Result<Result<SegmentedKernel, Flaw>, OutOfMemory>
    ensures { IfOk result (Begins trace_segment.now) }
{
    let config = trace_segment.trace.config().copy(alloc)?;
    let mut kernel = SegmentedKernel::open(alloc, config)?;
    let mut segment = kernel.spare(alloc)?;
    match flaw_of(alloc, &kernel, trace_segment, &mut segment.start)? {
        Some(flaw) => Ok(Err(flaw)),
        None => {
            segment.before = trace_segment.before;
            kernel.resume(segment);
            Ok(Ok(kernel))
        }
    }
}

// Makes of a machine at opening that with which a trace segment begins, and finds the first flaw of
// its header, if it has one.
fn flaw_of(
    alloc: Global,
    opened: &SegmentedKernel,
    trace_segment: &TraceSegment,
    start: &mut Start,
) -> Result<Option<Flaw>, OutOfMemory>
    requires opened { opened.now ≡ at_opening trace_segment.now.trace.config }
    requires start { start.old ≡ machine_at_opening trace_segment.now.trace.config }
    ensures told { IfOk result (IsFlawOf trace_segment.now) }
    ensures made { IfOk result (λ found. found ≡ None →
        start.new ≡ trace_segment.now.machine) }
{
    if !counts_fit(opened.config(), &trace_segment.before) {
        return Ok(Some(Flaw::Counts));
    }
    match begin(opened.config(), &trace_segment.machine, start) {
        Some(flaw) => Ok(Some(flaw)),
        None => opening_flaw(alloc, opened, &trace_segment.before, start),
    }
}

// That nothing was before a machine, and it isn't the one at opening, if that is so.
fn opening_flaw(
    alloc: Global,
    opened: &SegmentedKernel,
    before: &Before,
    start: &Start,
) -> Result<Option<Flaw>, OutOfMemory>
    requires opened { opened.now ≡ at_opening opened.now.config }
    requires sized { IsSized opened.now.config start.now }
    ensures { IfOk result (IsFirst (IsFree opened.now.config before.now start.now)
        (flaw.Opening ∷ [])) }
{
    if is_first_or_later(alloc, opened, before, start)? {
        Ok(None)
    } else {
        Ok(Some(Flaw::Opening))
    }
}

// Whether something was before a machine, or it has the header of the machine at opening, as which
// a kernel begins.
fn is_first_or_later(
    alloc: Global,
    opened: &SegmentedKernel,
    before: &Before,
    start: &Start,
) -> Result<bool, OutOfMemory>
    requires opened { opened.now ≡ at_opening opened.now.config }
    requires sized { IsSized opened.now.config start.now }
    ensures { IfOk result (λ is. IsTrue is ↔
        IsFirstOrLater opened.now.config before.now start.now) }
{
    if before.segments != 0 {
        return Ok(true);
    }
    let own = header_text(alloc, opened.config(), before, start)?;
    let first = header_text(alloc, opened.config(), &opened.before(), opened.start())?;
    Ok(own.as_slice() == first.as_slice())
}

// Makes of a machine at opening one that was read, and finds its first flaw, if it has one.
fn begin(config: &Config, machine: &MachineText, start: &mut Start) -> Option<Flaw>
    requires { start.old ≡ machine_at_opening config.now }
    ensures told { (b : spec.Before) →
        IsFirst (IsFree config.now b machine.now) machine_flaws result }
    ensures made { result ≡ None → start.new ≡ machine.now }
{
    if !is_sized(config, machine) {
        return Some(Flaw::Invariant);
    }
    if !fill(config, machine, start) {
        return Some(Flaw::Invariant);
    }
    machine_flaw(config, start)
}

// The first flaw of a machine, if it has one.
fn machine_flaw(config: &Config, start: &Start) -> Option<Flaw>
    requires { IsSized config.now start.now }
    ensures { (b : spec.Before) → IsFirst (IsFree config.now b start.now) machine_flaws result }
{
    if !is_machine_kept(config, start) {
        return Some(Flaw::Invariant);
    }
    if !have_owners_blocks(config, start) {
        return Some(Flaw::Owners);
    }
    if !are_commands_shown(config, start) {
        return Some(Flaw::Commands);
    }
    if !have_kinds_of_blocks(config, start) {
        return Some(Flaw::Kinds);
    }
    if !are_in_state(config, start) {
        return Some(Flaw::States);
    }
    if !have_all_orders(config, start) {
        return Some(Flaw::Orders);
    }
    None
}

// Whether the states of axes and groups have their errors, holds, commands and paths.
fn have_states(config: &Config, start: &Start) -> bool
    requires { IsSized config.now start.now }
    ensures { IsTrue result ↔ HaveStates config.now start.now }
{
    are_axes_in_state(config, start) && are_groups_in_state(config, start)
}

// Whether they have, and the drives are led so.
fn are_in_state(config: &Config, start: &Start) -> bool
    requires { IsSized config.now start.now }
    ensures { IsTrue result ↔ AreInState config.now start.now }
{
    have_states(config, start) && are_steered(config, start)
}

// Whether a machine that was read has the sizes of a configuration.
fn is_sized(config: &Config, machine: &MachineText) -> bool
    ensures { IsTrue result ↔ IsSized config.now machine.now }
{
    let lists = config.axes().len() + config.groups().len();
    machine.axes.len() == config.axes().len()
        && machine.groups.len() == config.groups().len()
        && machine.waiting.lists() as usize == lists
        && machine.instances.len() == config.blocks().len()
}

// Makes of a machine at opening one that was read, unless of one of its axes the invariant isn't
// true.
fn fill(config: &Config, machine: &MachineText, start: &mut Start) -> bool
    requires opened { start.old ≡ machine_at_opening config.now }
    requires sized { IsSized config.now machine.now }
    ensures made { IsTrue result → start.new ≡ machine.now }
    ensures axes { IsMachineKept config.now machine.now → IsTrue result }
{
    set_groups(start, machine.groups.as_slice());
    set_waiting(start, &machine.waiting);
    set_instances(start, machine.instances.as_slice());
    set_axes(start, machine.axes.as_slice())
}
