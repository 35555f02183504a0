// Laws of errors: each is the contract of a function that does nothing.

ghost use Rattle.std.specs.Prelude.{List, ◌∷◌, ◌++◌};
ghost use Rattle.motion_history.specs.Entries.{Entry};
ghost use Rattle.motion_history.specs.Setup.{Setup, IsSetup};
ghost use Rattle.motion_kernel.specs.Histories.{IsPast, machine_after};
ghost use Rattle.motion_kernel.specs.kept.Machine.{AreWhole};
ghost use Rattle.motion_laws.specs.causes.Rows.{ErrorsAreBrought};
ghost use Rattle.motion_laws.specs.entries.Numbers.{ErrorsAreTold};

use crate::row_laws::{rows_show_errors, rows_show_the_machine};
use axis_core::errors_stand_in_error_stop as axis_errors_stand;
use command_changes::{axis_changes_are_made, group_changes_are_made};
use group_core::{errors_are_those_of_axes, errors_stand_in_error_stop as group_errors_stand};
use kin_core::taken_steps_keep;
use motion_kernel::machines_stay_kept;

/// Errors are reported as they are shown. In every entry of a past an error that is reported as
/// the end of a command on an axis or a group has the number that the axis or the group has after
/// the entry, unless that is not in its ErrorStop then; it is given the instance whose command is
/// the active one, or, with 106, the one whose command waits first; and in ErrorStop and in
/// GroupErrorStop the number stays. A group that comes to GroupErrorStop in a cycle has the number
/// of one of its axes, unless a Reset of that axis was pending.
pub fn errors_are_told_as_shown()
    ensures entries { (s : Setup) (made more : List Entry) (e : Entry) → IsSetup s → AreWhole s →
        IsPast s (made ++ e ∷ more) → ErrorsAreTold s (machine_after s made) e }
{
    machines_stay_kept();
    axis_changes_are_made();
    group_changes_are_made();
}

/// Each error that a row shows has its cause in the row's cycle or in an entry before it, after
/// which the axis or the group stays in ErrorStop with that number. An axis gets it in a cycle: 101
/// where its drive reports a fault; 102 where it is driven with power on and its drive takes
/// setpoints no more, without a fault; 105 where its drive begins to take them outside its limits;
/// 103 where its active command has no target, and the step that it wants is unsafe and doesn't
/// brake; 104 where its active command is a CamIn that was InSync, and the step to the cam's
/// position is unsafe; 106 where a MoveRelative or a MoveAdditive takes over whose target then lies
/// outside the limits. A group gets 102 where a Power of one of its axes is called with Enable
/// false, and in a cycle 101, 102 or 105 where the drive of one of its axes brings that axis this
/// error, and that of none before it in the group's order one. And each error by which a command
/// ends, and which its instance is notified, is brought so by the entry that ends it.
pub fn errors_have_causes()
    ensures causes { (s : Setup) (es : List Entry) → IsSetup s → AreWhole s → IsPast s es →
        ErrorsAreBrought s es }
{
    machines_stay_kept();
    axis_errors_stand();
    group_errors_stand();
    errors_are_those_of_axes();
    taken_steps_keep();
    axis_changes_are_made();
    group_changes_are_made();
    errors_are_told_as_shown();
    rows_show_the_machine();
    rows_show_errors();
}
