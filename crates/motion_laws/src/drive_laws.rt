// Laws of what drives are given and report: each is the contract of a function that does nothing.

ghost use Rattle.std.specs.Prelude.{List};
ghost use Rattle.motion_history.specs.Entries.{Entry};
ghost use Rattle.motion_history.specs.Setup.{Setup, IsSetup};
ghost use Rattle.motion_kernel.specs.Histories.{IsPast};
ghost use Rattle.motion_kernel.specs.kept.Machine.{AreWhole};
ghost use Rattle.motion_laws.specs.limits.Drives.{RowsAreDriven, SpellsBeginAtDrives, TargetsFollowSetpoints};

use axis_core::{axes_keep_their_definitions, calls_move_no_axis};
use motion_history::configurations_are_sound;
use motion_kernel::machines_stay_kept;

/// In every past the target that a drive is given in a cycle is the count of its row's setpoint:
/// what lies between it and the offset, in whole increments, rounded down. So from one row of an
/// axis to the next the target steps as the setpoint, less its offset, does, but for less than an
/// increment; and the changes of these steps differ by less than two. The limits that rows keep are
/// the setpoint's: the target keeps them but for that.
pub fn targets_follow_setpoints()
    ensures targets { (s : Setup) (es : List Entry) → IsSetup s → AreWhole s → IsPast s es →
        TargetsFollowSetpoints s es }
{
    machines_stay_kept();
    calls_move_no_axis();
    axes_keep_their_definitions();
    configurations_are_sound();
}

/// In every past an axis stands at the place that its drive reported in the same cycle wherever its
/// row is not driven, or the row before it was not: so the first setpoint of a driven spell is
/// where the drive is. A row is driven exactly where power is on, the drive's answer is
/// operational, and the axis was driven before or its drive stands within the limits.
pub fn spells_begin_at_drives()
    ensures spells { (s : Setup) (es : List Entry) → IsSetup s → AreWhole s → IsPast s es →
        SpellsBeginAtDrives s es }
    ensures driven { (s : Setup) (es : List Entry) → IsSetup s → AreWhole s → IsPast s es →
        RowsAreDriven s es }
{
    machines_stay_kept();
    calls_move_no_axis();
    axes_keep_their_definitions();
}
