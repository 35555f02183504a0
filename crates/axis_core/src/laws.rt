// Laws of an axis: each is the contract of a function that does nothing.

ghost use Rattle.std.specs.Prelude.{◌≡◌, ◌↔◌, ◌+ℤ◌, ◌⊎◌, IsTrue, None, ℤ, [], ℕ, Bool, true, nat_eq};
ghost use Rattle.command_pool.specs.declared.wanted.Wanted.{Wanted};
ghost use Rattle.axis_core.specs.AxisKept.{IsAxisDef, IsCoreKept, IsLook};
ghost use Rattle.axis_core.specs.Calls.{core_after_command, axis_without_owner, core_after_power};
ghost use Rattle.axis_core.specs.Cores.{Core};
ghost use Rattle.axis_core.specs.Cycles.{core_after_cycle, axis_at_opening, row_shown};
ghost use Rattle.axis_core.specs.Demands.{IsMade, asked_in};
ghost use Rattle.axis_core.specs.Led.{HasCommand, StaysLed};
ghost use Rattle.axis_core.specs.Drives.{answer_error_of};
ghost use Rattle.axis_core.specs.Steps.{is_safe_step, taken_step_in};
ghost use Rattle.plc_types.specs.declared.axis_state.AxisState.TheVariants as state;
ghost use Rattle.plc_types.specs.Limits.{AreLimits};
ghost use Rattle.kin_core.specs.Admissible.{IsKept, IsSafe, IsTakenStep};
ghost use Rattle.axis_core.specs.Owners.{core_without_owner};
ghost use Rattle.axis_core.specs.Refusals.{Asked};
ghost use Rattle.axis_core.specs.Rows.{KeepsSpell, Stays};
ghost use Rattle.axis_core.specs.Shown.{IsShown};
ghost use Rattle.axis_core.specs.blocks.Path.{axis_on_path};
ghost use Rattle.axis_core.specs.declared.look.AxisLook.{AxisLook};
ghost use Rattle.plc_types.specs.Counts.{IsCount};
ghost use Rattle.plc_types.specs.declared.axis.AxisDef.{AxisDef};
ghost use Rattle.axis_core.specs.declared.axis.Axis.{Axis};

use kin_core::{braking_steps_are_only_cut, standing_is_kept, taken_steps_keep};
use plc_types::{
    counts_are_read_back, homing_keeps_counts, offsets_are_small, setpoints_have_counts,
};

/// The invariant of an axis and of the commands that wait for it holds at opening, and after every
/// call and every cycle, whose row keeps the axis's limits.
pub fn axes_stay_kept()
    ensures opened { (d : AxisDef) → IsAxisDef d →
        IsCoreKept (record { axis = axis_at_opening d; waiting = []; notes = [] }) }
    ensures command { (c : Core) (number : ℕ) (w : Wanted) (jerk : ℤ) (held : Bool) (tables : ℕ) →
        IsCoreKept c → IsMade w →
        IsCoreKept (core_after_command (asked_in c number w jerk held tables) c) }
    ensures power { (enable : Bool) (c : Core) → IsCoreKept c →
        IsCoreKept (core_after_power enable c) }
    ensures detach { (owner : ℕ) (c : Core) → IsCoreKept c →
        IsCoreKept (core_without_owner owner c) }
    ensures path { (on : Bool) (c : Core) → IsCoreKept c → c.axis.active ≡ None →
        IsTrue on ⊎ (c.axis.previous ≡ c.axis.setpoint) →
        IsCoreKept (record c { axis = axis_on_path on c.axis }) }
    ensures cycle { (look : AxisLook) (c : Core) → IsCoreKept c → IsLook c.axis look →
        IsCount look.input.actual → IsCoreKept (core_after_cycle look c) }
    ensures row { (look : AxisLook) (c : Core) → IsCoreKept c → IsLook c.axis look →
        KeepsSpell c.axis (row_shown look.input (core_after_cycle look c).axis)
        (core_after_cycle look c).axis }
{
    taken_steps_keep();
    braking_steps_are_only_cut();
    standing_is_kept();
    setpoints_have_counts();
    homing_keeps_counts();
    counts_are_read_back();
    offsets_are_small();
}

/// Calls between cycles move no axis: it stays where it is, within the same limits and in its
/// driven spell.
pub fn calls_move_no_axis()
    ensures command { (q : Asked) (c : Core) → Stays c.axis (core_after_command q c).axis }
    ensures power { (enable : Bool) (c : Core) → Stays c.axis (core_after_power enable c).axis }
    ensures detach { (owner : ℕ) (a : Axis) → Stays a (axis_without_owner owner a) }
    ensures path { (on : Bool) (a : Axis) → Stays a (axis_on_path on a) }
{}

/// An axis shows an error, 101 to 106, exactly in ErrorStop, and an instance holds Stopping only in
/// Stopping: so at opening, and after every call and every cycle.
pub fn errors_stand_in_error_stop()
    ensures opened { (d : AxisDef) → IsShown (axis_at_opening d) }
    ensures command { (q : Asked) (c : Core) → q.axis ≡ c.axis → IsMade q.wanted → IsShown c.axis →
        IsShown (core_after_command q c).axis }
    ensures power { (enable : Bool) (c : Core) → IsShown c.axis →
        IsShown (core_after_power enable c).axis }
    ensures detach { (owner : ℕ) (a : Axis) → IsShown a → IsShown (axis_without_owner owner a) }
    ensures path { (on : Bool) (a : Axis) → IsShown a → IsShown (axis_on_path on a) }
    ensures cycle { (look : AxisLook) (c : Core) → IsShown c.axis →
        IsShown (core_after_cycle look c).axis }
{}

/// The taken step is the safe step nearest to the wanted one, and a step is safe exactly where it
/// is taken as it is wanted: so is the place of a cam that is InSync.
pub fn steps_are_safe()
    ensures taken { (a : Axis) (step : ℤ) → AreLimits a.limits →
        IsKept a.limits a.previous a.setpoint →
        IsTakenStep a.limits a.previous a.setpoint step (taken_step_in a step) }
    ensures safe { (a : Axis) (step : ℤ) → AreLimits a.limits →
        IsKept a.limits a.previous a.setpoint →
        (is_safe_step a step ≡ true) ↔ IsSafe a.limits a.previous a.setpoint (a.setpoint +ℤ step) }
{
    taken_steps_keep();
}

/// An axis in Standstill stays there in a cycle whose drive answer brings no error.
pub fn standing_axes_stay()
    ensures { (look : AxisLook) (c : Core) → IsCoreKept c → c.axis.state ≡ state.Standstill →
        nat_eq (answer_error_of c.axis look.input) 0 ≡ true →
        (core_after_cycle look c).axis.state ≡ state.Standstill }
{}

/// An axis in a state of a command that moves it has an active command, and it comes on its group's
/// path by `on_path` alone.
pub fn moving_axes_have_commands()
    ensures opened { (d : AxisDef) → HasCommand (axis_at_opening d) }
    ensures command { (q : Asked) (c : Core) → StaysLed c.axis (core_after_command q c).axis }
    ensures power { (enable : Bool) (c : Core) → StaysLed c.axis (core_after_power enable c).axis }
    ensures detach { (owner : ℕ) (a : Axis) → StaysLed a (axis_without_owner owner a) }
    ensures path { (on : Bool) (a : Axis) → HasCommand a → HasCommand (axis_on_path on a) }
    ensures cycle { (look : AxisLook) (c : Core) → IsCoreKept c →
        StaysLed c.axis (core_after_cycle look c).axis }
{}
