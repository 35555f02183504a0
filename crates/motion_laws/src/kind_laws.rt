// Laws of the kinds of blocks: each is the contract of a function that does nothing.

ghost use Rattle.std.specs.Prelude.{List};
ghost use Rattle.motion_history.specs.Entries.{Entry};
ghost use Rattle.motion_history.specs.Setup.{Setup, IsSetup};
ghost use Rattle.motion_kernel.specs.Histories.{IsPast};
ghost use Rattle.motion_kernel.specs.kept.Machine.{AreWhole};
ghost use Rattle.motion_laws.specs.results.KindEnds.{EndByKinds};

use crate::result_laws::results_are_told;
use command_changes::{axis_changes_are_made, group_changes_are_made};
use motion_history::configurations_are_sound;
use motion_kernel::machines_stay_kept;

/// Commands end by their kinds. In every entry of a past a command that is Done is none of
/// a Power, a MoveVelocity, a GearIn, a CamIn or a MoveCircularAbsolute; and an active command that
/// a cycle aborts is one of a MoveVelocity, a GearIn or a CamIn, while another one waits.
pub fn commands_end_by_their_kinds()
    ensures kinds { (s : Setup) (es : List Entry) → IsSetup s → AreWhole s → IsPast s es →
        EndByKinds s es }
{
    results_are_told();
    configurations_are_sound();
    machines_stay_kept();
    axis_changes_are_made();
    group_changes_are_made();
}
