// The law that a machine can stand as it does: the contract of a function that does nothing.

ghost use Rattle.std.specs.Prelude.{List};
ghost use Rattle.motion_history.specs.Entries.{Entry};
ghost use Rattle.motion_history.specs.Setup.{Setup, IsSetup};
ghost use Rattle.motion_kernel.specs.Histories.{IsLegalFrom, IsPast, machine_after, machine_from};
ghost use Rattle.motion_kernel.specs.Machine.{Machine, machine_at_opening};
ghost use Rattle.motion_kernel.specs.kept.Machine.{AreWhole};
ghost use Rattle.motion_laws.specs.Standing.{IsStanding};

use axis_core::{errors_stand_in_error_stop as axis_errors_stand, moving_axes_have_commands};
use command_changes::{axis_changes_are_made, group_changes_are_made};
use command_core::{commands_come_from_calls, ends_are_told_once, holders_have_commands};
use group_core::{
    errors_are_those_of_axes, errors_stand_in_error_stop as group_errors_stand,
    lines_lead_to_their_targets,
};
use motion_kernel::machines_stay_kept;

/// What a look at the machine decides holds at opening, after every past, and after every segment
/// that is legal from a machine of which it holds: commands are where their instances show, and of
/// the kinds of their blocks; errors stand exactly in the states of errors, and axes and groups are
/// held only in stopping; an axis in a state of a command that moves it has one, its commands are
/// such as calls ask for, and its drive is led as the kernel does; and the path of an active line
/// leads to its targets.
pub fn machines_can_stand()
    ensures opened { (s : Setup) → IsSetup s → AreWhole s → IsStanding s (machine_at_opening s) }
    ensures segment { (s : Setup) (m : Machine) (es : List Entry) → AreWhole s → IsStanding s m →
        IsLegalFrom s m es → IsStanding s (machine_from s m es) }
    ensures past { (s : Setup) (es : List Entry) → IsSetup s → AreWhole s → IsPast s es →
        IsStanding s (machine_after s es) }
{
    machines_stay_kept();
    axis_changes_are_made();
    group_changes_are_made();
    ends_are_told_once();
    commands_come_from_calls();
    holders_have_commands();
    axis_errors_stand();
    group_errors_stand();
    errors_are_those_of_axes();
    moving_axes_have_commands();
    lines_lead_to_their_targets();
}
