// Names of items, by their numbers, and of kinds of block.

ghost use Rattle.std.specs.Prelude.{◌≡◌, ◌≢◌, ◌↔◌, ◌≤◌, Some, None, IfSome, length, slice_get};
ghost use Rattle.std.specs.Option.{option_map};
ghost use Rattle.plc_types.specs.KindNames as words;
ghost use Rattle.motion_c.specs.Held.{held};
ghost use Rattle.motion_c.specs.Items.{TellsItem, kind_at, name_at, padded};
ghost use Rattle.motion_c.specs.declared.machine.Machine.{Machine};

use crate::code::{CLOSED, OK, UNKNOWN};
use crate::motion::{Motion, put, take};
use crate::naming::Item;
use motion_history::Config;
use plc_types::{BlockKind, KINDS, Name, kind_name};
use std::alloc::Global;

/// A name as a text of C, with zeros behind it.
#[repr(C)]
#[derive(Clone, Copy)]
pub struct MotionName {
    pub text: [u8; 24],
}

/// Shows the name of an axis.
#[unsafe(no_mangle)]
pub extern "C" fn motion_axis_name(
    alloc: Global,
    motion: &mut Motion,
    axis: u8,
    name: &mut MotionName,
) -> u32
    ensures closed { (result ≡ 1) ↔ (held motion.old ≡ None) }
    ensures code { (m : Machine) → held motion.old ≡ Some m →
        TellsItem (name_at Item.Axis m.kernel.kernel.config axis) result }
    ensures shown { (m : Machine) → held motion.old ≡ Some m → result ≡ 0 →
        IfSome (name_at Item.Axis m.kernel.kernel.config axis) (λ n. name.new.text ≡ padded n) }
    ensures kept { held motion.new ≡ held motion.old }
    ensures same { result ≢ 0 → name.new ≡ name.old }
{
    show_item(alloc, motion, Item::Axis, axis as u32, name)
}

/// Shows the name of a group.
#[unsafe(no_mangle)]
pub extern "C" fn motion_group_name(
    alloc: Global,
    motion: &mut Motion,
    group: u8,
    name: &mut MotionName,
) -> u32
    ensures closed { (result ≡ 1) ↔ (held motion.old ≡ None) }
    ensures code { (m : Machine) → held motion.old ≡ Some m →
        TellsItem (name_at Item.Group m.kernel.kernel.config group) result }
    ensures shown { (m : Machine) → held motion.old ≡ Some m → result ≡ 0 →
        IfSome (name_at Item.Group m.kernel.kernel.config group) (λ n. name.new.text ≡ padded n) }
    ensures kept { held motion.new ≡ held motion.old }
    ensures same { result ≢ 0 → name.new ≡ name.old }
{
    show_item(alloc, motion, Item::Group, group as u32, name)
}

/// Shows the name of a task.
#[unsafe(no_mangle)]
pub extern "C" fn motion_task_name(
    alloc: Global,
    motion: &mut Motion,
    task: u8,
    name: &mut MotionName,
) -> u32
    ensures closed { (result ≡ 1) ↔ (held motion.old ≡ None) }
    ensures code { (m : Machine) → held motion.old ≡ Some m →
        TellsItem (name_at Item.Task m.kernel.kernel.config task) result }
    ensures shown { (m : Machine) → held motion.old ≡ Some m → result ≡ 0 →
        IfSome (name_at Item.Task m.kernel.kernel.config task) (λ n. name.new.text ≡ padded n) }
    ensures kept { held motion.new ≡ held motion.old }
    ensures same { result ≢ 0 → name.new ≡ name.old }
{
    show_item(alloc, motion, Item::Task, task as u32, name)
}

/// Shows the name of a block.
#[unsafe(no_mangle)]
pub extern "C" fn motion_block_name(
    alloc: Global,
    motion: &mut Motion,
    block: u16,
    name: &mut MotionName,
) -> u32
    ensures closed { (result ≡ 1) ↔ (held motion.old ≡ None) }
    ensures code { (m : Machine) → held motion.old ≡ Some m →
        TellsItem (name_at Item.Block m.kernel.kernel.config block) result }
    ensures shown { (m : Machine) → held motion.old ≡ Some m → result ≡ 0 →
        IfSome (name_at Item.Block m.kernel.kernel.config block) (λ n. name.new.text ≡ padded n) }
    ensures kept { held motion.new ≡ held motion.old }
    ensures same { result ≢ 0 → name.new ≡ name.old }
{
    show_item(alloc, motion, Item::Block, block as u32, name)
}

/// Shows the name of a kind of block, by the kind's number. It needs no handle.
#[unsafe(no_mangle)]
pub extern "C" fn motion_kind_name(kind: u32, name: &mut MotionName) -> u32
    ensures code { TellsItem (kind_at kind) result }
    ensures shown { result ≡ 0 →
        IfSome (kind_at kind) (λ k. name.new.text ≡ padded (words.kind_name k)) }
    ensures same { result ≢ 0 → name.new ≡ name.old }
{
    match kind_of(kind) {
        Some(found) => {
            *name = text_of_kind(found);
            OK
        }
        None => UNKNOWN,
    }
}

// Shows the name of an item of a held machine.
fn show_item(
    alloc: Global,
    motion: &mut Motion,
    item: Item,
    number: u32,
    name: &mut MotionName,
) -> u32
    ensures closed { (result ≡ 1) ↔ (held motion.old ≡ None) }
    ensures code { (m : Machine) → held motion.old ≡ Some m →
        TellsItem (name_at item m.kernel.kernel.config number) result }
    ensures shown { (m : Machine) → held motion.old ≡ Some m → result ≡ 0 →
        IfSome (name_at item m.kernel.kernel.config number) (λ n. name.new.text ≡ padded n) }
    ensures kept { held motion.new ≡ held motion.old }
    ensures same { result ≢ 0 → name.new ≡ name.old }
{
    let Some(machine) = take(alloc, motion) else {
        return CLOSED;
    };
    let answer = show_name(machine.kernel.segment().config(), item, number, name);
    put(motion, machine);
    answer
}

// Shows the name of an item of a configuration.
fn show_name(config: &Config, item: Item, number: u32, name: &mut MotionName) -> u32
    ensures code { TellsItem (name_at item config.now number) result }
    ensures open { result ≢ 1 }
    ensures shown { result ≡ 0 →
        IfSome (name_at item config.now number) (λ n. name.new.text ≡ padded n) }
    ensures same { result ≢ 0 → name.new ≡ name.old }
{
    match name_of(config, item, number) {
        Some(found) => {
            *name = text_of_name(&found);
            OK
        }
        None => UNKNOWN,
    }
}

// The name of an item.
fn name_of(config: &Config, item: Item, number: u32) -> Option<Name>
    ensures { result ≡ name_at item config.now number }
{
    match item {
        Item::Axis => axis_name(config, number),
        Item::Group => group_name(config, number),
        Item::Task => config.tasks().get(number as usize).copied(),
        Item::Block => block_name(config, number),
    }
}

// The name of an axis.
fn axis_name(config: &Config, number: u32) -> Option<Name>
    ensures { result ≡ name_at Item.Axis config.now number }
{
    match config.axes().get(number as usize) {
        Some(axis) => Some(axis.name),
        None => None,
    }
}

// The name of a group.
fn group_name(config: &Config, number: u32) -> Option<Name>
    ensures { result ≡ name_at Item.Group config.now number }
{
    match config.groups().get(number as usize) {
        Some(group) => Some(group.name),
        None => None,
    }
}

// The name of a block.
fn block_name(config: &Config, number: u32) -> Option<Name>
    ensures { result ≡ name_at Item.Block config.now number }
{
    match config.blocks().get(number as usize) {
        Some(block) => Some(block.name),
        None => None,
    }
}

// The kind of block of a number.
fn kind_of(number: u32) -> Option<BlockKind>
    ensures { result ≡ kind_at number }
{
    kind_in(&KINDS, number)
}

// The kind of block of a number among these.
fn kind_in(kinds: &[BlockKind], number: u32) -> Option<BlockKind>
    ensures { result ≡ slice_get kinds.now number }
{
    kinds.get(number as usize).copied()
}

// A name as a text of C.
fn text_of_name(name: &Name) -> MotionName
    ensures { result.text ≡ padded name.now }
{
    text_of(name.bytes())
}

// The name of a kind of block as a text of C.
fn text_of_kind(kind: BlockKind) -> MotionName
    ensures { result.text ≡ padded (words.kind_name kind) }
{
    text_of(kind_name(kind).as_bytes())
}

// Bytes as a text of C.
fn text_of(bytes: &[u8]) -> MotionName
    requires { length bytes.now ≤ 24 }
    ensures { result.text ≡ padded bytes.now }
{
    let mut text = [0u8; 24];
    text[..bytes.len()].copy_from_slice(bytes);
    MotionName { text }
}
