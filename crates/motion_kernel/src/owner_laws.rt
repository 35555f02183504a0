// The law of whose commands are where: the contract of a function that does nothing.

ghost use Rattle.std.specs.Prelude.{ℕ, List};
ghost use Rattle.plc_types.specs.declared.drive.DriveIn.{DriveIn};
ghost use Rattle.plc_types.specs.declared.inputs.Inputs.{Inputs};
ghost use Rattle.motion_history.specs.Calls.{IsCall};
ghost use Rattle.motion_history.specs.Setup.{Setup};
ghost use Rattle.motion_kernel.specs.calls.Calls.{after_call};
ghost use Rattle.motion_kernel.specs.cycles.Cycles.{after_cycle};
ghost use Rattle.motion_kernel.specs.kept.Machine.{AreWhole, IsMachineKept};
ghost use Rattle.motion_kernel.specs.Machine.{Machine, machine_at_opening};
ghost use Rattle.motion_kernel.specs.owners.Blocks.{OwnersHaveBlocks};

use crate::laws::machines_stay_kept;
use command_changes::{axis_changes_are_made, group_changes_are_made};
use command_core::{ends_are_told_once, holders_have_commands};

/// Whoever has a command of an axis or a group, or holds it in stopping, is an instance whose block
/// acts on it: at opening, and after every call and every cycle. So the earlier command of an
/// instance that is called anew is nowhere but where its block acts.
pub fn owners_have_blocks()
    ensures opened { (s : Setup) → OwnersHaveBlocks s (machine_at_opening s) }
    ensures call { (s : Setup) (m : Machine) (k : ℕ) (i : Inputs) → AreWhole s → IsCall s k i →
        IsMachineKept s m → OwnersHaveBlocks s m → OwnersHaveBlocks s (after_call s m k i) }
    ensures cycle { (s : Setup) (m : Machine) (ins : List DriveIn) → IsMachineKept s m →
        OwnersHaveBlocks s m → OwnersHaveBlocks s (after_cycle s m ins) }
{
    machines_stay_kept();
    axis_changes_are_made();
    group_changes_are_made();
    ends_are_told_once();
    holders_have_commands();
}
