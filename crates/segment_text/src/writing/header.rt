// Writing the header of a trace segment.

ghost use Rattle.std.specs.Prelude.{◌≡◌, ◌+◌, ◌<◌, ◌≤◌, ◌++◌, IfOk, OnOk, length, map, slice_get};
ghost use Rattle.command_pool.specs.Waiting.{queue_of};
ghost use Rattle.motion_kernel.specs.Machine.{list_of};
ghost use Rattle.motion_kernel.specs.kept.Machine.{IsSized};
ghost use Rattle.segment_text.specs.Parts.{object_at, record_at};
ghost use Rattle.segment_text.specs.TraceSegment as spec;
ghost use Rattle.segment_text.specs.TraceSegment.{group_queue, lines_text};
ghost use Rattle.segment_text.specs.Records.{axis_fields, group_fields, instance_fields, trace_segment_fields};
ghost use Rattle.segment_text.specs.Texts.{line_of};
ghost use Rattle.segment_text.specs.WantedFields.{waiting_fields};

use crate::writing::field::push_fields;
use crate::writing::object::{push_axis, push_group, push_instance, push_waiting};
use itoa::Buffer;
use motion_history::{Config, OutOfMemory};
use motion_kernel::{Before, Start};
use std::alloc::{AllocError, Global};

// Puts what was before.
#[tactic(auto, unfolding(crate::specs::Texts::line_of))]
fn push_before(out: &mut Vec<u8>, before: &Before) -> Result<(), AllocError>
    ensures { OnOk result (out.new.items ≡ out.old.items ++ line_of (trace_segment_fields before.now)) }
{
    let mut segments = Buffer::new();
    let mut entries = Buffer::new();
    let mut cycles = Buffer::new();
    let fields = [
        b"1".as_slice(),
        segments.format(before.segments).as_bytes(),
        entries.format(before.entries).as_bytes(),
        cycles.format(before.cycles).as_bytes(),
    ];
    out.extend_from_slice(b"segment")?;
    push_fields(out, &fields)?;
    out.push(b'\n')?;
    Ok(())
}

// Puts the commands that wait in a list.
fn push_list(out: &mut Vec<u8>, start: &Start, list: u8) -> Result<(), OutOfMemory>
    requires { list < length start.now.queues }
    ensures { OnOk result (out.new.items ≡ out.old.items ++
        lines_text (map waiting_fields (queue_of start.now.queues list))) }
{
    for place in 0..start.waiting_count(list) {
        match start.waiting(list, place) {
            Some(wanted) => push_waiting(out, wanted)?,
            None => return Ok(()),
        }
    }
    Ok(())
}

// Puts an axis, if it is there, with the commands that wait for it.
fn push_axis_at(out: &mut Vec<u8>, start: &Start, axis: u8) -> Result<(), OutOfMemory>
    requires { axis < length start.now.queues }
    ensures { OnOk result (out.new.items ≡ out.old.items ++
        lines_text (object_at axis_fields (queue_of start.now.queues) axis
        (slice_get start.now.axes axis))) }
{
    match start.axis(axis) {
        Some(now) => {
            push_axis(out, axis, now)?;
            push_list(out, start, axis)
        }
        None => Ok(()),
    }
}

// Puts a group, if it is there, with the commands that wait for it in a list.
fn push_group_at(out: &mut Vec<u8>, start: &Start, group: u8, list: u8) -> Result<(), OutOfMemory>
    requires list { list ≡ list_of start.now group }
    requires there { list < length start.now.queues }
    ensures { OnOk result (out.new.items ≡ out.old.items ++
        lines_text (object_at group_fields (group_queue start.now) group
        (slice_get start.now.groups group))) }
{
    match start.group(group) {
        Some(now) => {
            push_group(out, group, now)?;
            push_list(out, start, list)
        }
        None => Ok(()),
    }
}

// Puts an instance, if it is there.
fn push_instance_at(out: &mut Vec<u8>, start: &Start, block: u16) -> Result<(), OutOfMemory>
    ensures { OnOk result (out.new.items ≡ out.old.items ++
        lines_text (record_at instance_fields block (slice_get start.now.instances block))) }
{
    match start.instance(block) {
        Some(instance) => {
            push_instance(out, block, instance)?;
            Ok(())
        }
        None => Ok(()),
    }
}

// Puts the axes, which are this many.
fn push_axes(out: &mut Vec<u8>, start: &Start, axes: u8) -> Result<(), OutOfMemory>
    requires axes { axes ≡ length start.now.axes }
    requires lists { axes ≤ length start.now.queues }
    ensures { OnOk result (out.new.items ≡ out.old.items ++
        lines_text (spec.axis_records start.now)) }
{
    for axis in 0..axes {
        push_axis_at(out, start, axis)?;
    }
    Ok(())
}

// Puts the groups, which are this many.
fn push_groups(out: &mut Vec<u8>, start: &Start, axes: u8, groups: u8) -> Result<(), OutOfMemory>
    requires axes { axes ≡ length start.now.axes }
    requires groups { groups ≡ length start.now.groups }
    requires lists { axes + groups ≤ length start.now.queues }
    requires few { axes + groups < 256 }
    ensures { OnOk result (out.new.items ≡ out.old.items ++
        lines_text (spec.group_records start.now)) }
{
    for group in 0..groups {
        push_group_at(out, start, group, axes + group)?;
    }
    Ok(())
}

// Puts the instances of the blocks, which are this many.
fn push_instances(out: &mut Vec<u8>, start: &Start, blocks: u16) -> Result<(), OutOfMemory>
    requires { blocks ≡ length start.now.instances }
    ensures { OnOk result (out.new.items ≡ out.old.items ++
        lines_text (spec.instance_records start.now)) }
{
    for block in 0..blocks {
        push_instance_at(out, start, block)?;
    }
    Ok(())
}

/// The header of a trace segment of this configuration: what was before it, and the machine with
/// which it begins.
#[tactic(auto, unfolding(crate::specs::TraceSegment::header_text))]
pub fn header_text(
    alloc: Global,
    config: &Config,
    before: &Before,
    start: &Start,
) -> Result<Vec<u8>, OutOfMemory>
    requires { IsSized config.now start.now }
    ensures { IfOk result (λ v. v.items ≡ spec.header_text before.now start.now) }
{
    let axes = config.axes().len() as u8;
    let groups = config.groups().len() as u8;
    let blocks = config.blocks().len() as u16;
    let mut out = Vec::new(alloc);
    push_before(&mut out, before)?;
    push_axes(&mut out, start, axes)?;
    push_groups(&mut out, start, axes, groups)?;
    push_instances(&mut out, start, blocks)?;
    Ok(out)
}
