// Looks at a machine: the rows of its segment's last cycle, and what is left of the segment.

ghost use Rattle.std.specs.Prelude.{◌≡◌, ◌≢◌, ◌↔◌, ◌-◌, Some, None, IfSome, length};
ghost use Rattle.motion_c.specs.Held.{held};
ghost use Rattle.motion_c.specs.Looks.{TellsLook, axis_shown, group_shown};
ghost use Rattle.motion_c.specs.Numbers.{count_in};
ghost use Rattle.motion_c.specs.declared.machine.Machine.{Machine};
ghost use Rattle.motion_history.specs.Entries.{cycles_of};
ghost use Rattle.motion_history.specs.LastCycles.{axis_row_in, group_row_in, last_cycle_of};

use crate::code::{CLOSED, NO_CYCLE, OK, UNKNOWN};
use crate::motion::{Motion, put, take};
use crate::rows::{axis_row, group_row, row_of_axis, row_of_group};
use motion_kernel::SegmentedKernel;
use std::alloc::Global;

/// What the last cycle shows of an axis.
#[repr(C)]
#[derive(Clone, Copy)]
pub struct MotionAxisRow {
    /// The setpoint, in internal units.
    pub setpoint: i64,
    /// What Home has moved the coordinate by, in internal units.
    pub offset: i64,
    /// 0 Disabled, 1 Standstill, 2 Homing, 3 Stopping, 4 DiscreteMotion, 5 ContinuousMotion,
    /// 6 SynchronizedMotion, 7 ErrorStop.
    pub state: u32,
    /// The axis error, 101 to 106 in ErrorStop, else 0.
    pub error: u16,
    /// 1 where the axis was driven in the cycle, else 0.
    pub driven: u8,
}

/// What the last cycle shows of a group.
#[repr(C)]
#[derive(Clone, Copy)]
pub struct MotionGroupRow {
    /// 0 GroupDisabled, 1 GroupStandby, 2 GroupMoving, 3 GroupHoming, 4 GroupStopping,
    /// 5 GroupErrorStop.
    pub state: u32,
    /// The group's error, 101 to 106 in GroupErrorStop, else 0.
    pub error: u16,
}

/// Looks at an axis in the last cycle of the segment.
#[unsafe(no_mangle)]
pub extern "C" fn motion_axis_look(
    alloc: Global,
    motion: &mut Motion,
    axis: u8,
    look: &mut MotionAxisRow,
) -> u32
    ensures closed { (result ≡ 1) ↔ (held motion.old ≡ None) }
    ensures code { (m : Machine) → held motion.old ≡ Some m →
        TellsLook (length m.kernel.kernel.config.axes) axis
        (axis_row_in axis (last_cycle_of m.kernel.kernel.history)) result }
    ensures shown { (m : Machine) → held motion.old ≡ Some m → result ≡ 0 →
        IfSome (axis_row_in axis (last_cycle_of m.kernel.kernel.history))
        (λ r. look.new ≡ axis_shown r) }
    ensures kept { held motion.new ≡ held motion.old }
    ensures same { result ≢ 0 → look.new ≡ look.old }
{
    let Some(machine) = take(alloc, motion) else {
        return CLOSED;
    };
    let answer = look_at_axis(machine.kernel.segment(), axis, look);
    put(motion, machine);
    answer
}

/// Looks at a group in the last cycle of the segment.
#[unsafe(no_mangle)]
pub extern "C" fn motion_group_look(
    alloc: Global,
    motion: &mut Motion,
    group: u8,
    look: &mut MotionGroupRow,
) -> u32
    ensures closed { (result ≡ 1) ↔ (held motion.old ≡ None) }
    ensures code { (m : Machine) → held motion.old ≡ Some m →
        TellsLook (length m.kernel.kernel.config.groups) group
        (group_row_in group (last_cycle_of m.kernel.kernel.history)) result }
    ensures shown { (m : Machine) → held motion.old ≡ Some m → result ≡ 0 →
        IfSome (group_row_in group (last_cycle_of m.kernel.kernel.history))
        (λ r. look.new ≡ group_shown r) }
    ensures kept { held motion.new ≡ held motion.old }
    ensures same { result ≢ 0 → look.new ≡ look.old }
{
    let Some(machine) = take(alloc, motion) else {
        return CLOSED;
    };
    let answer = look_at_group(machine.kernel.segment(), group, look);
    put(motion, machine);
    answer
}

/// How many cycles more there may be in the segment: 0 where the handle is closed.
#[unsafe(no_mangle)]
pub extern "C" fn motion_cycles_left(alloc: Global, motion: &mut Motion) -> u32
    ensures count { result ≡ count_in motion.old (λ k. k.config.cycles - cycles_of k.history) }
    ensures kept { held motion.new ≡ held motion.old }
{
    let Some(machine) = take(alloc, motion) else {
        return 0;
    };
    let left = machine.kernel.segment().cycles_left();
    put(motion, machine);
    left
}

/// For how many entries more the segment has room: 0 where the handle is closed.
#[unsafe(no_mangle)]
pub extern "C" fn motion_room_left(alloc: Global, motion: &mut Motion) -> u64
    ensures count { result ≡ count_in motion.old (λ k. k.config.entries - length k.history) }
    ensures kept { held motion.new ≡ held motion.old }
{
    let Some(machine) = take(alloc, motion) else {
        return 0;
    };
    let left = machine.kernel.segment().room_left();
    put(motion, machine);
    left
}

// Looks at an axis.
fn look_at_axis(kernel: &SegmentedKernel, axis: u8, look: &mut MotionAxisRow) -> u32
    ensures code { TellsLook (length kernel.now.config.axes) axis
        (axis_row_in axis (last_cycle_of kernel.now.history)) result }
    ensures open { result ≢ 1 }
    ensures shown { result ≡ 0 →
        IfSome (axis_row_in axis (last_cycle_of kernel.now.history))
        (λ r. look.new ≡ axis_shown r) }
    ensures same { result ≢ 0 → look.new ≡ look.old }
{
    if axis as usize >= kernel.config().axes().len() {
        return UNKNOWN;
    }
    match axis_row(kernel, axis) {
        Some(row) => {
            *look = row_of_axis(&row);
            OK
        }
        None => NO_CYCLE,
    }
}

// Looks at a group.
fn look_at_group(kernel: &SegmentedKernel, group: u8, look: &mut MotionGroupRow) -> u32
    ensures code { TellsLook (length kernel.now.config.groups) group
        (group_row_in group (last_cycle_of kernel.now.history)) result }
    ensures open { result ≢ 1 }
    ensures shown { result ≡ 0 →
        IfSome (group_row_in group (last_cycle_of kernel.now.history))
        (λ r. look.new ≡ group_shown r) }
    ensures same { result ≢ 0 → look.new ≡ look.old }
{
    if group as usize >= kernel.config().groups().len() {
        return UNKNOWN;
    }
    match group_row(kernel, group) {
        Some(row) => {
            *look = row_of_group(&row);
            OK
        }
        None => NO_CYCLE,
    }
}
