// Laws of the machine: each is the contract of a function that does nothing.

ghost use Rattle.std.specs.Prelude.{◌≡◌, ◌<◌, ℕ, List, Some, length, slice_get};
ghost use Rattle.plc_types.specs.Counts.{IsCount};
ghost use Rattle.plc_types.specs.declared.drive.DriveIn.{DriveIn};
ghost use Rattle.plc_types.specs.declared.inputs.Inputs.{Inputs};
ghost use Rattle.motion_history.specs.Calls.{IsCall};
ghost use Rattle.motion_history.specs.Setup.{Setup, IsSetup};
ghost use Rattle.motion_history.specs.declared.config.BlockDef.{BlockDef};
ghost use Rattle.motion_kernel.specs.calls.Calls.{after_call, called, with_execute};
ghost use Rattle.motion_kernel.specs.cycles.Cycles.{after_cycle, around_in, stepped_in};
ghost use Rattle.motion_kernel.specs.looks.DriveAnswers.{answer_at};
ghost use Rattle.motion_kernel.specs.Machine.{Machine, machine_at_opening};
ghost use Rattle.motion_kernel.specs.kept.Machine.{AreWhole, IsMachineKept};
ghost use Rattle.motion_kernel.specs.kept.Ready.{MayCall, MayGoOn, MayStep};

use axis_core::{
    axes_keep_their_definitions, axes_stay_kept, held_axes_take_no_command,
    moving_axes_have_commands, paths_are_followed, standing_axes_stay,
};
use follow_plan::cam_positions_lie_between_points;
use group_core::{
    groups_come_alive_by_enable_and_reset, groups_keep_their_axes, groups_stay_kept,
    members_keep_their_limits, paths_change_by_commands,
};
use motion_history::configurations_are_sound;

/// The invariant of a machine holds at opening, and after every call and every cycle: each axis and
/// each group is as its own laws say; an axis on its group's path stands at its places on it, and
/// one of no group is on none; the axes of a group that is enabled and has no error have no command
/// of their own, and are on its path exactly where it has one. So every block may be called with
/// inputs of its kind, and every cycle made with whatever the drives answer.
pub fn machines_stay_kept()
    ensures opened { (s : Setup) → IsSetup s → AreWhole s → IsMachineKept s (machine_at_opening s) }
    ensures may_call { (s : Setup) (k : ℕ) (b : BlockDef) (i : Inputs) (m : Machine) → AreWhole s →
        slice_get s.blocks k ≡ Some b → IsCall s k i → IsMachineKept s m →
        MayCall s k b i (with_execute k i m) }
    ensures called { (s : Setup) (k : ℕ) (i : Inputs) (m : Machine) → AreWhole s → IsCall s k i →
        IsMachineKept s m → IsMachineKept s (called s k i m) }
    ensures call { (s : Setup) (m : Machine) (k : ℕ) (i : Inputs) → AreWhole s → IsCall s k i →
        IsMachineKept s m → IsMachineKept s (after_call s m k i) }
    ensures may_step { (s : Setup) (m : Machine) (ins : List DriveIn) → IsMachineKept s m →
        MayStep s ins m }
    ensures may_go_on { (s : Setup) (m : Machine) (ins : List DriveIn) → IsMachineKept s m →
        MayGoOn s (around_in s ins m) (stepped_in s ins m).machine }
    ensures cycle { (s : Setup) (m : Machine) (ins : List DriveIn) → IsMachineKept s m →
        ((n : ℕ) → n < length m.axes → IsCount (answer_at ins n).actual) →
        IsMachineKept s (after_cycle s m ins) }
{
    configurations_are_sound();
    axes_stay_kept();
    axes_keep_their_definitions();
    held_axes_take_no_command();
    moving_axes_have_commands();
    paths_are_followed();
    standing_axes_stay();
    groups_stay_kept();
    groups_keep_their_axes();
    groups_come_alive_by_enable_and_reset();
    members_keep_their_limits();
    paths_change_by_commands();
    cam_positions_lie_between_points();
}
