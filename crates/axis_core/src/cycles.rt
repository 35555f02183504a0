// The order within a cycle of an axis.

ghost use Rattle.std.specs.Prelude.{◌≡◌, ◌<◌, ◌≤◌, ◌≤ℤ◌, ◌-ℤ◌, ◌&&◌, true, [], length, slice_set, unsigned_abs, pos};
ghost use Rattle.plc_types.specs.Counts.{count_of, IsCount};
ghost use Rattle.command_pool.specs.Waiting.{queue_of};
ghost use Rattle.axis_core.specs.AxisKept.{IsCoreKept, IsLook};
ghost use Rattle.axis_core.specs.Cores.{core_at};
ghost use Rattle.axis_core.specs.Cycles as spec;
ghost use Rattle.axis_core.specs.Rows.{KeepsSpell};

use crate::advancing::pass;
use crate::axis::Axis;
use crate::blocks::halts::leave_stopping;
use crate::blocks::power::is_powered;
use crate::blocks::reset::reset;
use crate::driving::is_driven;
use crate::look::AxisLook;
use crate::taking_over::end_by;
use buffer_modes::ends_tell_their_owners;
use cia402_machine::{ENABLE_OPERATION, next_controlword, state_of};
use command_pool::{CommandPool, Notes};
use kin_core::{braking_steps_are_only_cut, standing_is_kept, taken_steps_keep};
use plc_types::{
    AxisRow, CYCLIC_SYNCHRONOUS_POSITION, DriveIn, DriveOut, MOST_COUNTED, counts_are_read_back,
    homing_keeps_counts, offsets_are_small, setpoints_have_counts, target_count,
};

// The drive's count, which has 32 bits.
fn reported(input: &DriveIn) -> i32
    ensures value { result ≡ input.now.actual }
    ensures count { IsCount input.now.actual }
{
    input.actual
}

// The controlword by what the drive's answer gives.
fn word(input: &DriveIn, axis: &Axis) -> u16
    ensures { result ≡ spec.controlword_for input.now axis.now }
{
    let state = state_of(input.statusword);
    let pending = axis.reset.is_some();
    next_controlword(state, is_powered(axis), pending, axis.controlword)
}

// The axis after its drive got its controlword: a driven one stays so.
fn give(driven: bool, input: &DriveIn, axis: &mut Axis)
    requires { driven ≡ true → spec.controlword_for input.now axis.old ≡ ENABLE_OPERATION }
    ensures { axis.new ≡ spec.axis_after_word input.now axis.old }
{
    axis.controlword = if driven {
        ENABLE_OPERATION
    } else {
        word(input, axis)
    };
    axis.was_off = false;
}

// What a cycle shows of the axis after it.
#[tactic(auto, unfolding(crate::specs::Cycles::row_shown))]
fn row(input: &DriveIn, axis: &Axis) -> AxisRow
    requires least { pos 1 ≤ℤ axis.now.inc }
    requires distance { unsigned_abs (axis.now.setpoint -ℤ axis.now.offset) ≤ MOST_COUNTED }
    requires count { IsCount (count_of axis.now.setpoint axis.now.offset axis.now.inc) }
    ensures { result ≡ spec.row_shown input.now axis.now }
{
    AxisRow {
        input: *input,
        state: axis.state,
        error: axis.error,
        driven: axis.driven,
        setpoint: axis.setpoint,
        offset: axis.offset,
        output: DriveOut {
            controlword: axis.controlword,
            mode: CYCLIC_SYNCHRONOUS_POSITION,
            target: target_count(axis.setpoint, axis.offset, axis.inc),
        },
    }
}

// What changes of the axis in a cycle, before it is shown.
fn change_in_cycle(
    look: &AxisLook,
    axis: &mut Axis,
    pool: &mut CommandPool,
    list: u8,
    notes: &mut Notes,
)
    requires list { list < length pool.old }
    requires room { notes.old ≡ [] }
    requires kept { IsCoreKept (core_at axis.old pool.old list notes.old) }
    requires look { IsLook axis.old look.now }
    ensures after { core_at axis.new pool.new list notes.new
        ≡ spec.core_after_cycle look.now (core_at axis.old pool.old list notes.old) }
    ensures others { pool.new ≡ slice_set pool.old list (queue_of pool.new list) }
    ensures kept { IsCoreKept (core_at axis.new pool.new list notes.new) }
    ensures limits { KeepsSpell axis.old (spec.row_shown look.now.input axis.new) axis.new }
{
    // laws
    ends_tell_their_owners();
    taken_steps_keep();
    braking_steps_are_only_cut();
    standing_is_kept();
    setpoints_have_counts();
    homing_keeps_counts();
    counts_are_read_back();
    offsets_are_small();
    // At most eight wait, so that the notes have room for all, and the drive's count has 32 bits.
    let _ = pool.waiting(list);
    let _ = reported(&look.input);
    let driven = is_driven(axis, &look.input);
    let ending = pass(driven, axis, pool.first(list), look);
    end_by(ending, axis, pool, list, notes);
    leave_stopping(look, axis);
    reset(&look.input, axis, notes);
    give(driven, &look.input, axis);
}

/// A cycle of the axis, and what it shows of it.
pub fn cycle_and_show(
    look: &AxisLook,
    axis: &mut Axis,
    pool: &mut CommandPool,
    list: u8,
    notes: &mut Notes,
) -> AxisRow
    requires list { list < length pool.old }
    requires room { notes.old ≡ [] }
    requires kept { IsCoreKept (core_at axis.old pool.old list notes.old) }
    requires look { IsLook axis.old look.now }
    ensures after { core_at axis.new pool.new list notes.new
        ≡ spec.core_after_cycle look.now (core_at axis.old pool.old list notes.old) }
    ensures others { pool.new ≡ slice_set pool.old list (queue_of pool.new list) }
    ensures row { result ≡ spec.row_shown look.now.input axis.new }
    ensures kept { IsCoreKept (core_at axis.new pool.new list notes.new) }
    ensures limits { KeepsSpell axis.old result axis.new }
{
    // laws
    offsets_are_small();
    change_in_cycle(look, axis, pool, list, notes);
    row(&look.input, axis)
}
