// The law of replies: the contract of a function that does nothing.

ghost use Rattle.std.specs.Prelude.{◌≡◌, ◌<◌, ℕ, false, Some, List, ◌∷◌, ◌++◌, length, slice_get};
ghost use Rattle.plc_types.specs.declared.drive.DriveIn.{DriveIn};
ghost use Rattle.fb_outputs.specs.Steps.{is_power};
ghost use Rattle.plc_types.specs.declared.inputs.Inputs.{Inputs};
ghost use Rattle.plc_types.specs.declared.outputs.Outputs.{Outputs};
ghost use Rattle.motion_history.specs.Entries.{Entry, call};
ghost use Rattle.motion_history.specs.Setup.{Setup, IsSetup};
ghost use Rattle.motion_history.specs.declared.config.BlockDef.{BlockDef};
ghost use Rattle.motion_kernel.specs.calls.Calls.{after_call, reply_of};
ghost use Rattle.motion_kernel.specs.cycles.Cycles.{after_cycle};
ghost use Rattle.motion_kernel.specs.Histories.{IsPast, machine_after};
ghost use Rattle.motion_kernel.specs.Machine.{Machine, machine_at_opening};
ghost use Rattle.motion_kernel.specs.kept.Machine.{AreWhole};
ghost use Rattle.motion_laws.specs.entries.Replies.{AreOfBlocks, IsReplyOf};
ghost use Rattle.motion_laws.specs.owners.Shown.{ShowsCommand};

use crate::owner_laws::commands_are_where_their_instances_show;
use fb_outputs::replies_tell_one_result as instances_tell_one_result;
use motion_history::configurations_are_sound;
use motion_kernel::machines_stay_kept;

/// Each reply of a past reports at most one of Busy, Done, CommandAborted and Error, and at
/// most one of Active, Done, CommandAborted and Error, but that a Stop or GroupStop may be Active
/// after its Done while its Execute is true. Where it shows an error, the ErrorID is one of a
/// refusal, 1 to 19, or of an axis error, 101 to 106; else it is 0. For nothing happens to an
/// instance but calls, starts and ends of its commands, cycles and replies, whatever the drives
/// answer.
pub fn replies_tell_one_result()
    ensures opened { (s : Setup) → AreOfBlocks s (machine_at_opening s).instances }
    ensures call { (s : Setup) (m : Machine) (k : ℕ) (i : Inputs) → AreOfBlocks s m.instances →
        AreOfBlocks s (after_call s m k i).instances }
    ensures cycle { (s : Setup) (m : Machine) (ins : List DriveIn) → AreOfBlocks s m.instances →
        AreOfBlocks s (after_cycle s m ins).instances }
    ensures reply { (s : Setup) (m : Machine) (k : ℕ) (i : Inputs) (b : BlockDef) →
        AreOfBlocks s m.instances → k < length m.instances → slice_get s.blocks k ≡ Some b →
        IsReplyOf b i (reply_of s m k i) }
    ensures entries { (s : Setup) (made more : List Entry) (k : ℕ) (i : Inputs)
        (reply : Outputs) (b : BlockDef) → IsSetup s → AreWhole s →
        IsPast s (made ++ call k i reply ∷ more) → slice_get s.blocks k ≡ Some b →
        IsReplyOf b i reply }
{
    machines_stay_kept();
    instances_tell_one_result();
}

/// The reply of a call shows what command its block has: in every past a block that is no
/// Power is Busy exactly where it has a command after the call, which is active, waits or is a
/// pending reset, and Active exactly where that is the active one; but a Stop or GroupStop may be
/// Active with its Done.
pub fn replies_show_commands()
    ensures entries { (s : Setup) (made more : List Entry) (k : ℕ) (i : Inputs)
        (reply : Outputs) (b : BlockDef) → IsSetup s → AreWhole s →
        IsPast s (made ++ call k i reply ∷ more) → slice_get s.blocks k ≡ Some b →
        is_power b.kind ≡ false →
        ShowsCommand (after_call s (machine_after s made) k i) k b reply }
{
    machines_stay_kept();
    configurations_are_sound();
    commands_are_where_their_instances_show();
}
