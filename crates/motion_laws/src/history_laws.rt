// What every past keeps, in one, and so every legal history and what segments give together:
// contracts of functions that do nothing.

ghost use Rattle.std.specs.Prelude.{◌≡◌, ◌++◌, List};
ghost use Rattle.motion_history.specs.Entries.{Entry, cycles_of};
ghost use Rattle.motion_history.specs.Setup.{Setup, IsSetup};
ghost use Rattle.motion_kernel.specs.Segments.{counted_on};
ghost use Rattle.motion_kernel.specs.Histories.{IsLegal, IsLegalFrom, IsPast, machine_from};
ghost use Rattle.motion_kernel.specs.Machine.{machine_at_opening};
ghost use Rattle.motion_laws.specs.Headline.{KeepsHeadline};
ghost use Rattle.motion_laws.specs.Laws.{KeepsLaws};
ghost use Rattle.motion_kernel.specs.kept.Machine.{AreWhole};

use crate::arrival_laws::{moves_arrive_in_time, paths_end_in_time};
use crate::drive_laws::{spells_begin_at_drives, targets_follow_setpoints};
use crate::entry_laws::entries_keep_their_laws;
use crate::error_laws::errors_have_causes;
use crate::kind_laws::commands_end_by_their_kinds;
use crate::limit_laws::{at_most_eight_wait, axes_stay_stoppable, rows_keep_limits};
use crate::refusal_laws::refusals_are_the_first;
use crate::result_laws::{
    done_moves_are_at_their_targets, results_are_told, results_come_of_ends, results_stay_shown,
};
use crate::row_laws::{rows_follow_lines, rows_show_that_moves_arrive, rows_slow_under_halts};
use motion_kernel::{rows_are_counted, segments_join};

/// In every past each row keeps its axis's limits; and after every entry each axis that is driven
/// and each path can be stopped within its limits, and at most eight commands wait for each axis
/// and each group. Each entry keeps the laws of entries: a refused call changes nothing but its own
/// instance, each reply reports one result, the states change by the entry's events, commands are
/// where their instances show, the rows of a cycle show the machine after it, and errors exactly in
/// the states of errors, and an error is reported with the number that is shown. Each move, Halt
/// and Stop of an axis, and each line, GroupHalt and GroupStop of a group, comes to its end in
/// time, and no blended move hangs; each end, be it a refusal, is reported to the instance whose
/// command it was, and to no other; each result that a reply reports comes of such an end, stays
/// while Execute is true, and goes with it; commands end by their kinds; a move is Done at its
/// target; rows show that moves, Halts and Stops end in time; no Home moves an axis out of the
/// counts of its drive; each error that a row shows has its cause in the entries so far; a call is
/// refused by the first ErrorID of its kind's table whose condition holds, and only where one does;
/// rows slow down under a Halt and a Stop, follow the line of their group, and slow down along it
/// under a GroupHalt and a GroupStop; the target that each drive is given is the count of its row's
/// setpoint; and a driven spell begins at the place that the drive reported.
pub fn pasts_keep_their_laws()
    ensures { (s : Setup) (es : List Entry) → IsSetup s → AreWhole s → IsPast s es →
        KeepsLaws s es }
{
    rows_keep_limits();
    axes_stay_stoppable();
    at_most_eight_wait();
    entries_keep_their_laws();
    moves_arrive_in_time();
    paths_end_in_time();
    results_are_told();
    results_come_of_ends();
    results_stay_shown();
    commands_end_by_their_kinds();
    done_moves_are_at_their_targets();
    rows_show_that_moves_arrive();
    rows_are_counted();
    errors_have_causes();
    refusals_are_the_first();
    rows_slow_under_halts();
    rows_follow_lines();
    targets_follow_setpoints();
    spells_begin_at_drives();
}

/// Every legal history is a past, and so keeps its laws.
pub fn histories_keep_their_laws()
    ensures { (s : Setup) (es : List Entry) → IsSetup s → AreWhole s → IsLegal s es →
        KeepsLaws s es }
{
    pasts_keep_their_laws();
}

/// Every legal history keeps what the headlines of the program say: each row keeps its axis's limits
/// while it is driven, and is driven exactly where it may be; the target that a drive is given is
/// the count of its row's setpoint; and moves, Halts and Stops end in time. These are laws among
/// those of [`histories_keep_their_laws`]; and since the configuration is sound, these follow again.
pub fn histories_keep_the_headline()
    ensures { (s : Setup) (es : List Entry) → IsSetup s → AreWhole s → IsLegal s es →
        KeepsHeadline s es }
{
    histories_keep_their_laws();
}

/// Segments that follow each other, each legal from the machine to which those before it lead, are
/// one past, their cycles counted on: so all laws hold of what a machine makes in any number of
/// segments. A first segment is a past by itself, as a legal history is, and each later one makes
/// of the past before it the next.
pub fn segments_keep_their_laws()
    ensures first { (s : Setup) (segment : List Entry) → IsLegal s segment → IsPast s segment }
    ensures past { (s : Setup) (past segment : List Entry) → IsPast s past →
        IsLegalFrom s (machine_from s (machine_at_opening s) past) segment →
        IsPast s (past ++ counted_on (cycles_of past) segment) }
    ensures machine { (s : Setup) (past segment : List Entry) →
        machine_from s (machine_at_opening s) (past ++ counted_on (cycles_of past) segment)
        ≡ machine_from s (machine_from s (machine_at_opening s) past) segment }
    ensures laws { (s : Setup) (past segment : List Entry) → IsSetup s → AreWhole s →
        IsPast s past → IsLegalFrom s (machine_from s (machine_at_opening s) past) segment →
        KeepsLaws s (past ++ counted_on (cycles_of past) segment) }
{
    segments_join();
    pasts_keep_their_laws();
}
