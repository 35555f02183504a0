// Laws of switches: each is the contract of a function that does nothing.

ghost use Rattle.switch_text.specs.Laws.{EdgesAreAsSaid, OnIsAsSaid, WatchesGoOn};

/// A switch is on after setpoints exactly where one of them lies inside by the hysteresis, and it
/// and all after it lie within. Nothing runs.
pub fn on_is_as_said()
    ensures { OnIsAsSaid }
{}

/// Switches after the cycles so far go on by the rows of the next to where they are after it, and
/// their edges there are those of the definition. Nothing runs.
pub fn watches_go_on()
    ensures { WatchesGoOn }
{}

/// An edge is among those of switches exactly where one of them turns so at its cycle: it is on, or
/// off, and wasn't at the cycle before. Nothing runs.
pub fn edges_are_as_said()
    ensures { EdgesAreAsSaid }
{}
