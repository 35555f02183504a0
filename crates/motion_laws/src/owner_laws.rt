// The law of commands and their instances: the contract of a function that does nothing.

ghost use Rattle.std.specs.Prelude.{ℕ, List};
ghost use Rattle.plc_types.specs.declared.drive.DriveIn.{DriveIn};
ghost use Rattle.plc_types.specs.declared.inputs.Inputs.{Inputs};
ghost use Rattle.motion_history.specs.Calls.{IsCall};
ghost use Rattle.motion_history.specs.Entries.{Entry};
ghost use Rattle.motion_history.specs.Setup.{Setup, IsSetup};
ghost use Rattle.motion_kernel.specs.calls.Calls.{after_call};
ghost use Rattle.motion_kernel.specs.cycles.Cycles.{after_cycle};
ghost use Rattle.motion_kernel.specs.Histories.{IsPast, machine_after};
ghost use Rattle.motion_kernel.specs.Machine.{Machine, machine_at_opening};
ghost use Rattle.motion_kernel.specs.kept.Machine.{AreWhole, IsMachineKept};
ghost use Rattle.motion_laws.specs.owners.Shown.{AreWhereShown};

use command_changes::{axis_changes_are_made, group_changes_are_made};
use command_core::{commands_come_from_calls, ends_are_told_once, holders_have_commands};
use motion_kernel::machines_stay_kept;

/// Each instance shows Active exactly while its command is the active one of the axis or group on
/// which its block acts, and Waiting exactly while its command waits there or is a pending reset;
/// it has no command elsewhere, and never two. Nobody but an instance of the configuration has a
/// command, or holds an axis in Stopping or a group in GroupStopping. So it is at opening, after
/// every call and every cycle, and so after every entry of a past.
pub fn commands_are_where_their_instances_show()
    ensures opened { (s : Setup) → AreWhereShown s (machine_at_opening s) }
    ensures call { (s : Setup) (m : Machine) (k : ℕ) (i : Inputs) → AreWhole s → IsCall s k i →
        IsMachineKept s m → AreWhereShown s m → AreWhereShown s (after_call s m k i) }
    ensures cycle { (s : Setup) (m : Machine) (ins : List DriveIn) → IsMachineKept s m →
        AreWhereShown s m → AreWhereShown s (after_cycle s m ins) }
    ensures entries { (s : Setup) (es : List Entry) → IsSetup s → AreWhole s → IsPast s es →
        AreWhereShown s (machine_after s es) }
{
    machines_stay_kept();
    axis_changes_are_made();
    group_changes_are_made();
    ends_are_told_once();
    commands_come_from_calls();
    holders_have_commands();
}
