// Laws of the machine's histories: each is the contract of a function that does nothing.

ghost use Rattle.std.specs.Prelude.{◌≡◌, ◌<◌, ◌≤◌, ℕ, List, ◌++◌, Some, true, length, map};
ghost use Rattle.command_pool.specs.Waiting.{queue_of};
ghost use Rattle.group_core.specs.GroupKept.{IsPathOf};
ghost use Rattle.group_core.specs.Tracks.{OnPath};
ghost use Rattle.kin_core.specs.Admissible.{IsKept};
ghost use Rattle.motion_laws.specs.limits.Rows.{KeepTheirLimits};
ghost use Rattle.motion_history.specs.Entries.{Entry};
ghost use Rattle.motion_history.specs.Setup.{Setup, IsSetup};
ghost use Rattle.motion_kernel.specs.Histories.{IsPast, replay};
ghost use Rattle.motion_kernel.specs.Machine.{axis_at, group_at, machine_at_opening};
ghost use Rattle.motion_kernel.specs.kept.Machine.{AreWhole, IsMachineKept, limits_of};
ghost use Rattle.motion_kernel.specs.members.Members.{members_at};

use axis_core::{axes_keep_their_definitions, axes_stay_kept, calls_move_no_axis};
use command_changes::{axis_changes_are_made, group_changes_are_made};
use group_core::{groups_keep_their_axes, groups_stay_kept};
use motion_kernel::machines_stay_kept;

/// In every past, whatever its calls and the drives' answers, each driven row of each
/// axis is admissible after the two rows before it: it lies within lo and hi, its step is at most
/// vmax, and its change of step at most amax, or dmax while it slows down. Offsets count for none
/// of these, so that a Home is no step; and a spell in which the axis is driven begins at a place
/// within lo and hi.
pub fn rows_keep_limits()
    ensures limits { (s : Setup) (es : List Entry) → IsSetup s → AreWhole s → IsPast s es →
        KeepTheirLimits s es }
{
    machines_stay_kept();
    calls_move_no_axis();
    axes_stay_kept();
}

/// After every past, and so after every entry of one, since the entries with which it
/// begins are a past too, the machine is kept: each driven axis can be stopped within
/// its limits, by setpoints that end with the same one twice; and each path can within its own,
/// which are those of its axes along it.
pub fn axes_stay_stoppable()
    ensures entries { (s : Setup) (es fs : List Entry) → IsPast s (es ++ fs) → IsPast s es }
    ensures machine { (s : Setup) (es : List Entry) → IsSetup s → AreWhole s → IsPast s es →
        IsMachineKept s (replay s (machine_at_opening s) es) }
    ensures axes { (s : Setup) (es : List Entry) → IsSetup s → AreWhole s → IsPast s es →
        (n : ℕ) → n < length s.axes →
        (axis_at (replay s (machine_at_opening s) es) n).driven ≡ true →
        IsKept (limits_of s n)
        (axis_at (replay s (machine_at_opening s) es) n).previous
        (axis_at (replay s (machine_at_opening s) es) n).setpoint }
    ensures paths { (s : Setup) (es : List Entry) → IsSetup s → AreWhole s → IsPast s es →
        (j : ℕ) (p : OnPath) → j < length s.groups →
        (group_at (replay s (machine_at_opening s) es) j).path ≡ Some p →
        IsPathOf (length (members_at s j)) (map (limits_of s) (members_at s j)) p }
{
    machines_stay_kept();
}

/// After every past, and so after every entry of one, at most eight commands wait for
/// each axis and each group.
pub fn at_most_eight_wait()
    ensures lists { (s : Setup) (es : List Entry) → IsSetup s → AreWhole s → IsPast s es →
        (list : ℕ) → length (queue_of (replay s (machine_at_opening s) es).queues list) ≤ 8 }
{
    machines_stay_kept();
    axes_stay_kept();
    axes_keep_their_definitions();
    groups_stay_kept();
    groups_keep_their_axes();
    axis_changes_are_made();
    group_changes_are_made();
    command_core::at_most_eight_wait();
}
