// The rows of the last cycle of a segment, and how C has them.

ghost use Rattle.std.specs.Prelude.{◌≡◌};
ghost use Rattle.motion_c.specs.Looks as spec;
ghost use Rattle.motion_c.specs.Looks.{axis_shown, group_shown};
ghost use Rattle.motion_history.specs.LastCycles.{axis_row_in, group_row_in, last_cycle_of};

use crate::looking::{MotionAxisRow, MotionGroupRow};
use motion_kernel::SegmentedKernel;
use plc_types::{AxisRow, AxisState, GroupRow, GroupState};

/// The row of an axis in the last cycle of the segment.
pub fn axis_row(kernel: &SegmentedKernel, axis: u8) -> Option<AxisRow>
    ensures { result ≡ axis_row_in axis (last_cycle_of kernel.now.history) }
{
    match kernel.last_cycle() {
        Some(cycle) => cycle.axes.get(axis as usize).copied(),
        None => None,
    }
}

/// The row of a group in the last cycle of the segment.
pub fn group_row(kernel: &SegmentedKernel, group: u8) -> Option<GroupRow>
    ensures { result ≡ group_row_in group (last_cycle_of kernel.now.history) }
{
    match kernel.last_cycle() {
        Some(cycle) => cycle.groups.get(group as usize).copied(),
        None => None,
    }
}

/// The row of an axis as C has it.
pub fn row_of_axis(row: &AxisRow) -> MotionAxisRow
    ensures { result ≡ axis_shown row.now }
{
    MotionAxisRow {
        setpoint: row.setpoint,
        offset: row.offset,
        state: axis_state_number(row.state),
        error: row.error,
        driven: u8::from(row.driven),
    }
}

/// The row of a group as C has it.
pub fn row_of_group(row: &GroupRow) -> MotionGroupRow
    ensures { result ≡ group_shown row.now }
{
    MotionGroupRow {
        state: group_state_number(row.state),
        error: row.error,
    }
}

// The number of a state of an axis.
fn axis_state_number(state: AxisState) -> u32
    ensures { result ≡ spec.axis_state_number state }
{
    match state {
        AxisState::Disabled => 0,
        AxisState::Standstill => 1,
        AxisState::Homing => 2,
        AxisState::Stopping => 3,
        AxisState::DiscreteMotion => 4,
        AxisState::ContinuousMotion => 5,
        AxisState::SynchronizedMotion => 6,
        AxisState::ErrorStop => 7,
    }
}

// The number of a state of a group.
fn group_state_number(state: GroupState) -> u32
    ensures { result ≡ spec.group_state_number state }
{
    match state {
        GroupState::GroupDisabled => 0,
        GroupState::GroupStandby => 1,
        GroupState::GroupMoving => 2,
        GroupState::GroupHoming => 3,
        GroupState::GroupStopping => 4,
        GroupState::GroupErrorStop => 5,
    }
}
