// Laws of owners and of fates: the clauses say them, and nothing runs.

ghost use Rattle.buffer_modes.specs.Laws.{AreFates, AreOwners, AreTakenAway, AreTellings};

/// How often an instance has commands, and how often it is notified of their ends; and the owner of
/// the active command is notified how it ends.
pub fn ends_tell_their_owners()
    ensures owners { AreOwners }
    ensures tellings { AreTellings }
{}

/// An instance whose commands are taken away has none, and the others keep theirs.
pub fn owners_are_taken_away()
    ensures { AreTakenAway }
{}

/// A fate is what becomes of the active command.
pub fn fates_are_of_the_active_command()
    ensures { AreFates }
{}
