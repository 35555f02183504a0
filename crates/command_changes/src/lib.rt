//! Which changes calls and cycles make of the commands of an axis and of a group, as tables by
//! kind, and the laws that these changes are made and that the fates of the active command are
//! theirs: so what command_core's laws say of all changes holds of both. It stands on command_core,
//! axis_core and group_core, and has no code but its laws. Begin with specs/Axis.antt; a new kind
//! of block gets its row there or in specs/Group.antt.
#![tactic(auto)]

mod laws;

pub use laws::{
    axis_changes_are_made, axis_fates_are_told, group_changes_are_made, group_fates_are_told,
};
