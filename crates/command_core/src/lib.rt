//! The commands of an axis or a group as one record, what calls and cycles do to it as a list of
//! changes, and what holds of all changes. It stands on buffer_modes, whose words of queues, owners
//! and fates it takes, and has no code but its laws. Begin with specs/CommandState.antt and
//! specs/Changes.antt; the table of an axis's and of a group's changes is in command_changes.
#![tactic(auto)]

mod laws;

pub use laws::{
    at_most_eight_wait, changes_follow_one_another, changes_make_fates, commands_come_from_calls,
    ends_are_told_once, holders_have_commands, owners_stay_apart,
};
