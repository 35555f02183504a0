// What the names in a text name.

ghost use Rattle.std.specs.Prelude.{◌≡◌, ◌<◌, IfOk, IfSome, length};
ghost use Rattle.std.specs.List.{position};
ghost use Rattle.std.specs.Str.{bytes_eq};
ghost use Rattle.line_text.specs.Reading.{Gives, each_of};
ghost use Rattle.line_text.specs.Texts.{texts};
ghost use Rattle.machine_words.specs.Names as spec;

use crate::rule::WRONG_NAME;
use line_text::{LineFault, required};
use motion_history::{BlockDef, Builder, GroupDef, TraceVersion};
use plc_types::{AxisDef, BlockKind, Name, kind_in};
use std::alloc::Global;

/// Whether two names are the same.
pub fn is_same_name(name: &Name, bytes: &[u8]) -> bool
    ensures { result ≡ bytes_eq name.now bytes.now }
{
    name.bytes() == bytes
}

/// Where the axis of this name stands.
pub fn place_of_axis(axes: &[AxisDef], name: &[u8]) -> Option<usize>
    ensures place { result ≡ position (λ d. bytes_eq d.name name.now) axes.now }
    ensures within { IfSome result (λ place. place < length axes.now) }
{
    axes.iter().position(|axis| is_same_name(&axis.name, name))
}

/// Where the group of this name stands.
pub fn place_of_group(groups: &[GroupDef], name: &[u8]) -> Option<usize>
    ensures place { result ≡ position (λ d. bytes_eq d.name name.now) groups.now }
    ensures within { IfSome result (λ place. place < length groups.now) }
{
    groups
        .iter()
        .position(|group| is_same_name(&group.name, name))
}

/// Where the task of this name stands.
pub fn place_of_task(tasks: &[Name], name: &[u8]) -> Option<usize>
    ensures place { result ≡ position (λ n. bytes_eq n name.now) tasks.now }
    ensures within { IfSome result (λ place. place < length tasks.now) }
{
    tasks.iter().position(|task| is_same_name(task, name))
}

/// Where the block of this name stands.
pub fn place_of_block(blocks: &[BlockDef], name: &[u8]) -> Option<usize>
    ensures place { result ≡ position (λ d. bytes_eq d.name name.now) blocks.now }
    ensures within { IfSome result (λ place. place < length blocks.now) }
{
    blocks
        .iter()
        .position(|block| is_same_name(&block.name, name))
}

/// The number of the axis of this name.
#[tactic(auto, unfolding(crate::specs::Names::axis_at))]
pub fn axis_at(machine: &Builder, name: &[u8]) -> Option<u8>
    ensures value { result ≡ spec.axis_at machine.now name.now }
    ensures within { IfSome result (λ n. n < length machine.now.axes) }
{
    match place_of_axis(machine.axes(), name) {
        Some(place) => Some(place as u8),
        None => None,
    }
}

/// The number of the group of this name.
#[tactic(auto, unfolding(crate::specs::Names::group_at))]
pub fn group_at(machine: &Builder, name: &[u8]) -> Option<u8>
    ensures { result ≡ spec.group_at machine.now name.now }
{
    match place_of_group(machine.groups(), name) {
        Some(place) => Some(place as u8),
        None => None,
    }
}

/// The number of the axis or group of this name, by what the kind acts on.
pub fn object_at(machine: &Builder, kind: BlockKind, name: &[u8]) -> Option<u8>
    ensures { result ≡ spec.object_at machine.now kind name.now }
{
    if kind.acts_on_group() {
        group_at(machine, name)
    } else {
        axis_at(machine, name)
    }
}

/// The number of the task of this name.
#[tactic(auto, unfolding(crate::specs::Names::task_at))]
pub fn task_at(machine: &Builder, name: &[u8]) -> Option<u8>
    ensures value { result ≡ spec.task_at machine.now name.now }
    ensures within { IfSome result (λ n. n < length machine.now.tasks) }
{
    match place_of_task(machine.tasks(), name) {
        Some(place) => Some(place as u8),
        None => None,
    }
}

/// The number of the block of this name.
#[tactic(auto, unfolding(crate::specs::Names::block_at))]
pub fn block_at(machine: &Builder, name: &[u8]) -> Option<u16>
    ensures value { result ≡ spec.block_at machine.now name.now }
    ensures within { IfSome result (λ n. n < length machine.now.blocks) }
{
    match place_of_block(machine.blocks(), name) {
        Some(place) => Some(place as u16),
        None => None,
    }
}

/// The number of the axis of this name, or the rule is broken.
pub fn axis_named(machine: &Builder, rule: u8, name: &[u8]) -> Result<u8, LineFault>
    ensures value { Gives (λ n. n) (spec.axis_named rule machine.now name.now) result }
    ensures within { IfOk result (λ n. n < length machine.now.axes) }
{
    match axis_at(machine, name) {
        Some(axis) => Ok(axis),
        None => Err(LineFault::Rule(rule)),
    }
}

/// The numbers of the axes of these names, or the rule is broken.
pub fn axes_named(
    alloc: Global,
    machine: &Builder,
    rule: u8,
    names: &[&[u8]],
) -> Result<Vec<u8>, LineFault>
    ensures { Gives (λ v. v.items)
        (each_of (spec.axis_named rule machine.now) (texts names.now)) result }
{
    let mut axes = Vec::new(alloc);
    for name in names {
        let axis = axis_named(machine, rule, name)?;
        let Ok(()) = axes.push(axis) else {
            return Err(LineFault::OutOfMemory);
        };
    }
    Ok(axes)
}

/// The number of the axis or group of this name in a bench or a program.
pub fn object_named(machine: &Builder, kind: BlockKind, name: &[u8]) -> Result<u8, LineFault>
    ensures { Gives (λ n. n) (spec.object_named machine.now kind name.now) result }
{
    required(object_at(machine, kind, name), WRONG_NAME)
}

/// The kind of this name in a bench or a program that has the kinds of a version.
pub fn kind_of(version: TraceVersion, name: &[u8]) -> Result<BlockKind, LineFault>
    ensures { Gives (λ k. k) (spec.kind_of version name.now) result }
{
    required(kind_in(version.number(), name), WRONG_NAME)
}
