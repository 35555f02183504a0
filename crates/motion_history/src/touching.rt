// Memory that was reserved is touched, so that nobody pays for its pages later.

ghost use Rattle.std.specs.Prelude.{◌≡◌, ◌≤◌, vec_capacity, vec_len};

use crate::entry::CallMade;
use plc_types::{
    AxisRow, AxisState, GroupRow, GroupState, INPUTS_OFF, NO_ANSWER, NO_OUTPUT, Outputs,
};

/// A call that nobody makes.
pub const NO_CALL: CallMade = CallMade {
    instance: 0,
    inputs: INPUTS_OFF,
    reply: Outputs {
        busy: false,
        active: false,
        done: false,
        aborted: false,
        error: false,
        error_id: 0,
        reached: false,
    },
};

/// A row of no axis.
pub const NO_AXIS_ROW: AxisRow = AxisRow {
    input: NO_ANSWER,
    state: AxisState::Disabled,
    error: 0,
    driven: false,
    setpoint: 0,
    offset: 0,
    output: NO_OUTPUT,
};

/// A row of no group.
pub const NO_GROUP_ROW: GroupRow = GroupRow {
    state: GroupState::GroupDisabled,
    error: 0,
};

/// Touches all memory that an array has reserved. The array stays as it was.
pub fn touch_room<T: Copy + Drop>(list: &mut Vec<T>, item: T)
    ensures items { list.new.items ≡ list.old.items }
    ensures len { vec_len list.new ≡ vec_len list.old }
    ensures room { vec_capacity list.old ≤ vec_capacity list.new }
{
    let used = list.len();
    let _ = list.resize(list.capacity(), item);
    list.truncate(used);
}
