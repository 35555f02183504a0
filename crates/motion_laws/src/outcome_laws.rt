// The law of outcomes: the contract of a function that does nothing.

ghost use Rattle.std.specs.Prelude.{◌≡◌, ℕ, false, Some, List, ◌∷◌, ◌++◌, slice_get};
ghost use Rattle.fb_outputs.specs.Steps.{is_power};
ghost use Rattle.motion_history.specs.Entries.{Entry};
ghost use Rattle.motion_history.specs.Setup.{Setup, IsSetup};
ghost use Rattle.motion_history.specs.declared.config.BlockDef.{BlockDef};
ghost use Rattle.motion_kernel.specs.Histories.{IsPast, machine_after};
ghost use Rattle.motion_kernel.specs.kept.Machine.{AreWhole};
ghost use Rattle.motion_laws.specs.results.Outcomes.{IsOutcome};

use command_changes::{axis_changes_are_made, group_changes_are_made};
use command_core::{
    changes_follow_one_another, changes_make_fates, commands_come_from_calls, ends_are_told_once,
    holders_have_commands,
};
use motion_history::configurations_are_sound;
use motion_kernel::machines_stay_kept;

/// What an entry of a past makes of the command of an instance. A call of the instance
/// itself makes of it what it is answered, where it is a rising edge: refused, active, waiting, or
/// Done at once; else it only takes away a result that was shown, with Execute false. Any other
/// entry ends it exactly where it says so: Done at its end, aborted where it waits or is replaced,
/// or by an error; makes it active exactly where it begins; and else leaves it as it was.
pub fn entries_make_outcomes()
    ensures outcomes { (s : Setup) (made more : List Entry) (e : Entry) (k : ℕ) (b : BlockDef) →
        IsSetup s → AreWhole s → IsPast s (made ++ e ∷ more) → slice_get s.blocks k ≡ Some b →
        is_power b.kind ≡ false → IsOutcome s (machine_after s made) e k b }
{
    machines_stay_kept();
    configurations_are_sound();
    axis_changes_are_made();
    group_changes_are_made();
    changes_follow_one_another();
    changes_make_fates();
    ends_are_told_once();
    commands_come_from_calls();
    holders_have_commands();
}
