// What each entry of a past keeps, in one: the contract of a function that does nothing.

ghost use Rattle.std.specs.Prelude.{List};
ghost use Rattle.motion_history.specs.Entries.{Entry};
ghost use Rattle.motion_history.specs.Setup.{Setup, IsSetup};
ghost use Rattle.motion_laws.specs.entries.Kept.{KeepsEntries};
ghost use Rattle.motion_kernel.specs.Histories.{IsPast};
ghost use Rattle.motion_kernel.specs.kept.Machine.{AreWhole};

use crate::error_laws::errors_are_told_as_shown;
use crate::event_laws::states_change_by_their_events;
use crate::owner_laws::commands_are_where_their_instances_show;
use crate::refusal_laws::refusals_change_nothing;
use crate::reply_laws::{replies_show_commands, replies_tell_one_result};
use crate::row_laws::{rows_show_errors, rows_show_the_machine};

/// In every entry of a past a call's reply reports one result, with the number of its error,
/// and shows what command its block has after it; a call that is refused, by the number of a
/// refusal, changes nothing but its instance; the states of axes and groups change by
/// the entry's events in their order, as their diagrams lead; after it each instance shows Waiting
/// or Active exactly where its command is; the rows of a cycle show the machine after it, and
/// errors exactly in the states of errors; and an error is reported with the number that is shown.
pub fn entries_keep_their_laws()
    ensures { (s : Setup) (es : List Entry) → IsSetup s → AreWhole s → IsPast s es →
        KeepsEntries s es }
{
    refusals_change_nothing();
    replies_tell_one_result();
    replies_show_commands();
    states_change_by_their_events();
    commands_are_where_their_instances_show();
    rows_show_the_machine();
    rows_show_errors();
    errors_are_told_as_shown();
}
