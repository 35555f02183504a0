// Laws of the changes of axes and groups: each is the contract of a function that does nothing.

ghost use Rattle.command_changes.specs.Fates.{AreAxisFates, AreGroupFates};
ghost use Rattle.command_changes.specs.Laws.{AreAxisChanges, AreGroupChanges};

use buffer_modes::owners_are_taken_away;
use command_core::{changes_follow_one_another, changes_make_fates};

/// What a command, a Power, a cycle and a detachment make of an axis's commands is what the table
/// of its changes says.
pub fn axis_changes_are_made()
    ensures { AreAxisChanges }
{
    changes_follow_one_another();
}

/// What a command, a Power off of a member, a cycle, a GroupReset and a detachment make of a
/// group's commands is what the table of its changes says.
pub fn group_changes_are_made()
    ensures { AreGroupChanges }
{
    changes_follow_one_another();
}

/// What becomes of the active command of an axis is what becomes of it by its changes, and its
/// owner is notified how it ends.
pub fn axis_fates_are_told()
    ensures { AreAxisFates }
{
    changes_follow_one_another();
    changes_make_fates();
    owners_are_taken_away();
}

/// What becomes of the active command of a group is what becomes of it by its changes, and its
/// owner is notified how it ends.
pub fn group_fates_are_told()
    ensures { AreGroupFates }
{
    changes_follow_one_another();
    changes_make_fates();
    owners_are_taken_away();
}
