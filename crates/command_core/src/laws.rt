// Laws of all changes: each is the contract of a function that does nothing.

ghost use Rattle.command_core.specs.Laws.{AreInOrder, AreOfChanges, AreToldOnce, HaveCommands, HaveNoMore, StayApart, WaitAtMost};

use buffer_modes::{
    ends_tell_their_owners, fates_are_of_the_active_command, owners_are_taken_away,
};

/// Some changes and then others are the changes of both lists in a row, and what they give stands
/// after what was reported before.
pub fn changes_follow_one_another()
    ensures { AreInOrder }
{}

/// Each instance is notified of each command that it has no longer, once, and of no other.
pub fn ends_are_told_once()
    ensures { AreToldOnce }
{
    ends_tell_their_owners();
    owners_are_taken_away();
}

/// Of each instance no more commands wait than before and those that are brought, and no more is
/// active in a call.
pub fn commands_come_from_calls()
    ensures { HaveNoMore }
{
    ends_tell_their_owners();
    owners_are_taken_away();
}

/// Owners stay apart: where no instance has two commands, none has after changes that bring none to
/// one that has one.
pub fn owners_stay_apart()
    ensures { StayApart }
{
    ends_tell_their_owners();
    owners_are_taken_away();
}

/// Whoever holds stopping held it before, or had a command, or brings one.
pub fn holders_have_commands()
    ensures { HaveCommands }
{
    ends_tell_their_owners();
    owners_are_taken_away();
}

/// At most eight commands wait, and changes that bring none add none.
pub fn at_most_eight_wait()
    ensures { WaitAtMost }
{}

/// Changes make of the active command what their fate says, and its owner is notified how it ends.
/// One that goes on is the same, with its owner.
pub fn changes_make_fates()
    ensures { AreOfChanges }
{
    ends_tell_their_owners();
    owners_are_taken_away();
    fates_are_of_the_active_command();
}
