// Laws of rows: each is the contract of a function that does nothing.

ghost use Rattle.std.specs.Prelude.{List, ◌∷◌, ◌++◌};
ghost use Rattle.plc_types.specs.declared.axis.AxisRow.{AxisRow};
ghost use Rattle.plc_types.specs.declared.group.GroupRow.{GroupRow};
ghost use Rattle.motion_history.specs.Entries.{Entry};
ghost use Rattle.motion_history.specs.Setup.{Setup, IsSetup};
ghost use Rattle.motion_kernel.specs.Histories.{IsCycleOf, IsPast, after, inputs_of, machine_after};
ghost use Rattle.motion_kernel.specs.Machine.{Machine};
ghost use Rattle.motion_kernel.specs.cycles.Cycles.{after_cycle};
ghost use Rattle.motion_kernel.specs.kept.Machine.{AreWhole, IsMachineKept};
ghost use Rattle.motion_laws.specs.arrivals.Along.{RowsFollow};
ghost use Rattle.motion_laws.specs.arrivals.Braking.{GroupHaltsSlow};
ghost use Rattle.motion_laws.specs.arrivals.Rows.{RowsStand};
ghost use Rattle.motion_laws.specs.arrivals.Slowing.{HaltsSlow};
ghost use Rattle.motion_laws.specs.entries.Errors.{ErrorsShow};
ghost use Rattle.motion_laws.specs.entries.Rows.{RowsShow, ShowMachine};

use crate::arrival_laws::moves_arrive_in_time;
use axis_core::{errors_stand_in_error_stop as axis_errors_stand, paths_are_followed};
use command_changes::{axis_fates_are_told, group_fates_are_told};
use group_core::{
    courses_end_in_time as group_courses_end, errors_are_those_of_axes,
    errors_stand_in_error_stop as group_errors_stand, lines_lead_to_their_targets,
};
use kin_core::braking_steps_are_only_cut;
use motion_kernel::machines_stay_kept;

/// The rows of a cycle show the machine after it: the row of an axis its state, its error, whether
/// it is driven, its setpoint and its offset, and the row of a group its state and its error. So it
/// is in every cycle of a machine that is kept, and in every entry of a past.
pub fn rows_show_the_machine()
    ensures cycle { (s : Setup) (m : Machine) (rows : List AxisRow) (grows : List GroupRow) →
        IsMachineKept s m → IsCycleOf s m rows grows →
        ShowMachine (after_cycle s m (inputs_of rows)) rows grows }
    ensures entries { (s : Setup) (made more : List Entry) (e : Entry) → IsSetup s → AreWhole s →
        IsPast s (made ++ e ∷ more) →
        RowsShow (after s (machine_after s made) e) e }
{
    machines_stay_kept();
}

/// Rows show errors: in every entry of a past the row of an axis has the number of an axis
/// error, 101 to 106, exactly in ErrorStop, and else 0; and so has the row of a group in
/// GroupErrorStop.
pub fn rows_show_errors()
    ensures errors { (s : Setup) (made more : List Entry) (e : Entry) → IsSetup s → AreWhole s →
        IsPast s (made ++ e ∷ more) → ErrorsShow e }
{
    machines_stay_kept();
    axis_errors_stand();
    group_errors_stand();
    errors_are_those_of_axes();
}

/// Rows show that moves arrive in time, and that Halts and Stops come to rest: in every past, from
/// the entry in which a move, a Halt or a Stop becomes active, and where the history has as many
/// cycles after it as its bound, a row of its axis within these stands where the setpoint before
/// it was, a move's at its target; or the command was aborted, faulted or blended before.
pub fn rows_show_that_moves_arrive()
    ensures rows { (s : Setup) (es : List Entry) → IsSetup s → AreWhole s → IsPast s es →
        RowsStand s es }
{
    rows_show_the_machine();
    moves_arrive_in_time();
    machines_stay_kept();
    axis_fates_are_told();
}

/// Rows slow down under a Halt and a Stop: in every cycle of a past in which one is the active
/// command of an axis, and which does not end it by an error, the step of the axis's row is less
/// than the step before it by at least the Deceleration, as far as rest, and does not turn back.
pub fn rows_slow_under_halts()
    ensures rows { (s : Setup) (es : List Entry) → IsSetup s → AreWhole s → IsPast s es →
        HaltsSlow s es }
{
    rows_show_the_machine();
    machines_stay_kept();
    braking_steps_are_only_cut();
}

/// Rows follow the line of their group: in every cycle of a past the row of an axis that is on its
/// group's path after it shows its place on that path, by the one place along it, from 0 to its
/// length, at which the group then is, and so was the setpoint before it; and under an active line
/// the path leads to the line's targets. In every cycle in which a GroupHalt or a GroupStop is
/// active, or what brakes a path before an aborting line, and which does not end it by an error,
/// the group takes the step along its path that brakes by the Deceleration, cut to the path's: it
/// slows down by at least that, as far as rest, and does not turn back, and each row of its axes
/// shows the axis's place after that step.
pub fn rows_follow_lines()
    ensures rows { (s : Setup) (es : List Entry) → IsSetup s → AreWhole s → IsPast s es →
        RowsFollow s es }
    ensures halts { (s : Setup) (es : List Entry) → IsSetup s → AreWhole s → IsPast s es →
        GroupHaltsSlow s es }
{
    braking_steps_are_only_cut();
    rows_show_the_machine();
    machines_stay_kept();
    group_fates_are_told();
    group_courses_end();
    lines_lead_to_their_targets();
    paths_are_followed();
}
