// Laws of motion over the machine's histories: each is the contract of a function that does
// nothing.

ghost use Rattle.std.specs.Prelude.{List};
ghost use Rattle.motion_history.specs.Entries.{Entry};
ghost use Rattle.motion_history.specs.Setup.{Setup, IsSetup};
ghost use Rattle.motion_laws.specs.arrivals.Moves.{MovesArrive};
ghost use Rattle.motion_laws.specs.arrivals.Paths.{PathsEnd};
ghost use Rattle.motion_kernel.specs.Histories.{IsPast};
ghost use Rattle.motion_kernel.specs.kept.Machine.{AreWhole};

use axis_core::{
    blended_moves_end_in_time, courses_end_in_time, moves_are_done_at_their_targets,
    paths_are_followed,
};
use command_changes::{axis_fates_are_told, group_fates_are_told};
use group_core::lines_lead_to_their_targets;
use motion_kernel::machines_stay_kept;

/// In every past the active command of an axis changes by its fate alone; and a move, a
/// Halt and a Stop come to their end in time. From the entry on in which one becomes active, be it
/// in its call or by taking over in a cycle, and where the history has as many cycles after it as
/// its bound, it is within these Done at the end of its course, or was aborted, blended or faulted
/// before: at rest at its target, by the bound on a move's cycles from where the axis then stood
/// and how it moved; or, for a Halt and a Stop, at rest, within |step| / Deceleration + 1 cycles.
/// What happens to other axes and blocks, and what the drives answer, changes nothing of that. A
/// move is Done at its target alone; a blended one there, or by a step of at most the blend
/// velocity that crosses it. And no blended move hangs: wherever a blend applies after an entry,
/// and the history has as many cycles after it as the blend's bound, the move is Done within
/// these, or was aborted or faulted; where the blend has a step, its bound is as many cycles as the
/// target is units away, and one.
pub fn moves_arrive_in_time()
    ensures moves { (s : Setup) (es : List Entry) → IsSetup s → AreWhole s → IsPast s es →
        MovesArrive s es }
{
    machines_stay_kept();
    axis_fates_are_told();
    courses_end_in_time();
    blended_moves_end_in_time();
    moves_are_done_at_their_targets();
}

/// In every past the active command of a group changes by its fate alone; and a
/// MoveLinearAbsolute, a GroupHalt and a GroupStop, and what brakes a path before an aborting line,
/// come to their end in time. From the entry on in which one becomes active, be it in its call, by
/// taking over in a cycle or after the braking, and where the history has as many cycles after it
/// as its bound, it is within these Done at the end of its course, or was aborted or faulted
/// before: at rest at the end of its path, by the bound on a move's cycles along it at the
/// command's rates cut to those of the path; or, for those that brake, at rest, within
/// |step| / Deceleration + 1 cycles. Wherever a command is Done, each axis of the group rests, and
/// where it was a line stands at its target.
pub fn paths_end_in_time()
    ensures paths { (s : Setup) (es : List Entry) → IsSetup s → AreWhole s → IsPast s es →
        PathsEnd s es }
{
    machines_stay_kept();
    group_fates_are_told();
    group_core::courses_end_in_time();
    lines_lead_to_their_targets();
    paths_are_followed();
}
