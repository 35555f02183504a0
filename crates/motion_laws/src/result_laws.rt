// Laws of results: each is the contract of a function that does nothing.

ghost use Rattle.std.specs.Prelude.{List};
ghost use Rattle.motion_history.specs.Entries.{Entry};
ghost use Rattle.motion_history.specs.Setup.{Setup, IsSetup};
ghost use Rattle.motion_kernel.specs.Histories.{IsPast};
ghost use Rattle.motion_kernel.specs.kept.Machine.{AreWhole};
ghost use Rattle.motion_laws.specs.results.Comes.{ResultsCome, ResultsGo, ResultsStay};
ghost use Rattle.motion_laws.specs.results.Results.{ResultsAreTold};
ghost use Rattle.motion_laws.specs.results.Targets.{MovesEndThere};

use crate::arrival_laws::moves_arrive_in_time;
use crate::outcome_laws::entries_make_outcomes;
use command_changes::{
    axis_changes_are_made, axis_fates_are_told, group_changes_are_made, group_fates_are_told,
};
use command_core::{
    changes_follow_one_another, changes_make_fates, commands_come_from_calls, ends_are_told_once,
    holders_have_commands,
};
use motion_history::configurations_are_sound;
use motion_kernel::machines_stay_kept;

/// In every past each end of a command is reported to its instance, and to no other. Where the
/// command of an instance ends in an entry that is no call of it, be it the active one, one that
/// waits or a Reset's, the instance shows so at its next call: Done, CommandAborted, or Error with
/// that error's number. One call takes this from it: a rising edge, which asks for a new command.
/// Where a call is refused, or Done at once, its own reply shows so. The active command ends as its
/// fate says; and none is Done but in a cycle, the active one or a Reset's, or by its own call. An
/// instance that has no command shows after an entry what it showed before, but for its own calls.
pub fn results_are_told()
    ensures results { (s : Setup) (es : List Entry) → IsSetup s → AreWhole s → IsPast s es →
        ResultsAreTold s es }
{
    entries_make_outcomes();
    machines_stay_kept();
    axis_changes_are_made();
    group_changes_are_made();
    changes_follow_one_another();
    changes_make_fates();
    ends_are_told_once();
    commands_come_from_calls();
    holders_have_commands();
    axis_fates_are_told();
    group_fates_are_told();
}

/// Each result that a reply of a past reports comes of an entry in which the command of its
/// instance ended so, be it the call itself or an entry before it, and after which no call of the
/// instance was a rising edge.
pub fn results_come_of_ends()
    ensures results { (s : Setup) (es : List Entry) → IsSetup s → AreWhole s → IsPast s es →
        ResultsCome s es }
{
    entries_make_outcomes();
}

/// A result that a reply of a past reports stays while Execute is true: the next call of the
/// instance with Execute still true gives it again. And it goes with it: where the next call has
/// Execute false, its reply shows nothing.
pub fn results_stay_shown()
    ensures results { (s : Setup) (es : List Entry) → IsSetup s → AreWhole s → IsPast s es →
        ResultsStay s es }
    ensures goes { (s : Setup) (es : List Entry) → IsSetup s → AreWhole s → IsPast s es →
        ResultsGo s es }
{
    results_are_told();
    machines_stay_kept();
}

/// A move of an instance is Done at its target. By the entry that ends the command of a
/// MoveAbsolute, a MoveRelative or a MoveAdditive Done, in every past, the axis stands at its
/// target, at rest, or, where the move is blended, comes there by a step of at most the blend
/// velocity that crosses it; and the command was the active one of that axis.
pub fn done_moves_are_at_their_targets()
    ensures targets { (s : Setup) (es : List Entry) → IsSetup s → AreWhole s → IsPast s es →
        MovesEndThere s es }
{
    results_are_told();
    moves_arrive_in_time();
    configurations_are_sound();
    machines_stay_kept();
    axis_changes_are_made();
    group_changes_are_made();
}
