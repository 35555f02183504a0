//! What every past of the motion kernel keeps: the entries that it made from opening on, however
//! many, as those of a legal history, or of segments that follow each other. Each law is the
//! contract of a function that does nothing. It stands on `motion_kernel` and has no other code.
//! Begin at [`pasts_keep_their_laws`], which says all of them; each of the others says one, in
//! words of its own, with its definitions in specs/ by subject.
#![tactic(auto)]

mod arrival_laws;
mod drive_laws;
mod entry_laws;
mod error_laws;
mod event_laws;
mod history_laws;
mod kind_laws;
mod limit_laws;
mod outcome_laws;
mod owner_laws;
mod refusal_laws;
mod reply_laws;
mod result_laws;
mod row_laws;
mod standing_laws;

pub use arrival_laws::{moves_arrive_in_time, paths_end_in_time};
pub use drive_laws::{spells_begin_at_drives, targets_follow_setpoints};
pub use entry_laws::entries_keep_their_laws;
pub use error_laws::{errors_are_told_as_shown, errors_have_causes};
pub use event_laws::states_change_by_their_events;
pub use history_laws::{
    histories_keep_the_headline, histories_keep_their_laws, pasts_keep_their_laws,
    segments_keep_their_laws,
};
pub use kind_laws::commands_end_by_their_kinds;
pub use limit_laws::{at_most_eight_wait, axes_stay_stoppable, rows_keep_limits};
pub use outcome_laws::entries_make_outcomes;
pub use owner_laws::commands_are_where_their_instances_show;
pub use refusal_laws::{refusals_are_the_first, refusals_change_nothing};
pub use reply_laws::{replies_show_commands, replies_tell_one_result};
pub use result_laws::{
    done_moves_are_at_their_targets, results_are_told, results_come_of_ends, results_stay_shown,
};
pub use row_laws::{
    rows_follow_lines, rows_show_errors, rows_show_that_moves_arrive, rows_show_the_machine,
    rows_slow_under_halts,
};
pub use standing_laws::machines_can_stand;
