// Numbers of items, by their names, and how many there are.

ghost use Rattle.std.specs.Prelude.{◌≡◌, ◌<◌, IfSome, length};
ghost use Rattle.machine_words.specs.Names.{axis_at, block_at, group_at, task_at};
ghost use Rattle.motion_c.specs.Held.{held};
ghost use Rattle.motion_c.specs.Numbers.{count_in, item_at, number_in, number_or_none};

use crate::code::NO_NUMBER;
use crate::motion::{Motion, put, take};
use machine_words::{place_of_axis, place_of_block, place_of_group, place_of_task};
use motion_history::Config;
use std::alloc::Global;

/// What has a name.
#[derive(Clone, Copy)]
pub enum Item {
    Axis,
    Group,
    Task,
    Block,
}

/// The number of the axis of this name, or 2^32 - 1.
#[unsafe(no_mangle)]
pub extern "C" fn motion_axis(alloc: Global, motion: &mut Motion, name: &[u8]) -> u32
    ensures number { result ≡ number_in motion.old (λ s. axis_at s name.now) }
    ensures kept { held motion.new ≡ held motion.old }
{
    number(alloc, motion, Item::Axis, name)
}

/// The number of the group of this name, or 2^32 - 1.
#[unsafe(no_mangle)]
pub extern "C" fn motion_group(alloc: Global, motion: &mut Motion, name: &[u8]) -> u32
    ensures number { result ≡ number_in motion.old (λ s. group_at s name.now) }
    ensures kept { held motion.new ≡ held motion.old }
{
    number(alloc, motion, Item::Group, name)
}

/// The number of the task of this name, or 2^32 - 1.
#[unsafe(no_mangle)]
pub extern "C" fn motion_task(alloc: Global, motion: &mut Motion, name: &[u8]) -> u32
    ensures number { result ≡ number_in motion.old (λ s. task_at s name.now) }
    ensures kept { held motion.new ≡ held motion.old }
{
    number(alloc, motion, Item::Task, name)
}

/// The number of the block of this name, or 2^32 - 1.
#[unsafe(no_mangle)]
pub extern "C" fn motion_block(alloc: Global, motion: &mut Motion, name: &[u8]) -> u32
    ensures number { result ≡ number_in motion.old (λ s. block_at s name.now) }
    ensures kept { held motion.new ≡ held motion.old }
{
    number(alloc, motion, Item::Block, name)
}

// The number of the item of this name in a held machine, or 2^32 - 1.
fn number(alloc: Global, motion: &mut Motion, item: Item, name: &[u8]) -> u32
    ensures number { result ≡ number_in motion.old (λ s. item_at item s name.now) }
    ensures kept { held motion.new ≡ held motion.old }
{
    let Some(machine) = take(alloc, motion) else {
        return NO_NUMBER;
    };
    let number = number_of(machine.kernel.segment().config(), item, name);
    put(motion, machine);
    number
}

// The number of the item of this name, or 2^32 - 1.
fn number_of(config: &Config, item: Item, name: &[u8]) -> u32
    ensures { result ≡ number_or_none (item_at item config.now name.now) }
{
    match place_of(config, item, name) {
        Some(place) => place as u32,
        None => NO_NUMBER,
    }
}

// Where the item of this name stands.
fn place_of(config: &Config, item: Item, name: &[u8]) -> Option<usize>
    ensures place { result ≡ item_at item config.now name.now }
    ensures few { IfSome result (λ n. n < 1000000) }
{
    match item {
        Item::Axis => axis_in(config, name),
        Item::Group => group_in(config, name),
        Item::Task => task_in(config, name),
        Item::Block => block_in(config, name),
    }
}

// Where the axis of this name stands in a configuration, whose sizes `axes` gives.
#[tactic(auto, unfolding(machine_words::specs::Names::axis_at))]
fn axis_in(config: &Config, name: &[u8]) -> Option<usize>
    ensures place { result ≡ axis_at config.now name.now }
    ensures few { IfSome result (λ n. n < 1000000) }
{
    place_of_axis(config.axes(), name)
}

// Where the group of this name stands in a configuration, whose sizes `axes` gives.
#[tactic(auto, unfolding(machine_words::specs::Names::group_at))]
fn group_in(config: &Config, name: &[u8]) -> Option<usize>
    ensures place { result ≡ group_at config.now name.now }
    ensures few { IfSome result (λ n. n < 1000000) }
{
    let _ = config.axes();
    place_of_group(config.groups(), name)
}

// Where the task of this name stands in a configuration, whose sizes `axes` gives.
#[tactic(auto, unfolding(machine_words::specs::Names::task_at))]
fn task_in(config: &Config, name: &[u8]) -> Option<usize>
    ensures place { result ≡ task_at config.now name.now }
    ensures few { IfSome result (λ n. n < 1000000) }
{
    let _ = config.axes();
    place_of_task(config.tasks(), name)
}

// Where the block of this name stands in a configuration, whose sizes `axes` gives.
#[tactic(auto, unfolding(machine_words::specs::Names::block_at))]
fn block_in(config: &Config, name: &[u8]) -> Option<usize>
    ensures place { result ≡ block_at config.now name.now }
    ensures few { IfSome result (λ n. n < 1000000) }
{
    let _ = config.axes();
    place_of_block(config.blocks(), name)
}

/// How many axes there are: 0 where the handle is closed.
#[unsafe(no_mangle)]
pub extern "C" fn motion_axes(alloc: Global, motion: &mut Motion) -> u32
    ensures count { result ≡ count_in motion.old (λ k. length k.config.axes) }
    ensures kept { held motion.new ≡ held motion.old }
{
    let Some(machine) = take(alloc, motion) else {
        return 0;
    };
    let count = machine.kernel.segment().config().axes().len() as u32;
    put(motion, machine);
    count
}

/// How many groups there are: 0 where the handle is closed.
#[unsafe(no_mangle)]
pub extern "C" fn motion_groups(alloc: Global, motion: &mut Motion) -> u32
    ensures count { result ≡ count_in motion.old (λ k. length k.config.groups) }
    ensures kept { held motion.new ≡ held motion.old }
{
    let Some(machine) = take(alloc, motion) else {
        return 0;
    };
    let count = group_count(machine.kernel.segment().config());
    put(motion, machine);
    count
}

/// How many tasks there are: 0 where the handle is closed.
#[unsafe(no_mangle)]
pub extern "C" fn motion_tasks(alloc: Global, motion: &mut Motion) -> u32
    ensures count { result ≡ count_in motion.old (λ k. length k.config.tasks) }
    ensures kept { held motion.new ≡ held motion.old }
{
    let Some(machine) = take(alloc, motion) else {
        return 0;
    };
    let count = task_count(machine.kernel.segment().config());
    put(motion, machine);
    count
}

/// How many blocks there are: 0 where the handle is closed.
#[unsafe(no_mangle)]
pub extern "C" fn motion_blocks(alloc: Global, motion: &mut Motion) -> u32
    ensures count { result ≡ count_in motion.old (λ k. length k.config.blocks) }
    ensures kept { held motion.new ≡ held motion.old }
{
    let Some(machine) = take(alloc, motion) else {
        return 0;
    };
    let count = block_count(machine.kernel.segment().config());
    put(motion, machine);
    count
}

// How many groups a configuration has.
fn group_count(config: &Config) -> u32
    ensures { result ≡ length config.now.groups }
{
    // its sizes are those of a whole configuration
    let _ = config.axes();
    config.groups().len() as u32
}

// How many tasks a configuration has.
fn task_count(config: &Config) -> u32
    ensures { result ≡ length config.now.tasks }
{
    // its sizes are those of a whole configuration
    let _ = config.axes();
    config.tasks().len() as u32
}

// How many blocks a configuration has.
fn block_count(config: &Config) -> u32
    ensures { result ≡ length config.now.blocks }
{
    // its sizes are those of a whole configuration
    let _ = config.axes();
    config.blocks().len() as u32
}
