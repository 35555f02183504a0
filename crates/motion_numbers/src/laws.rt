// Laws of ways to rest and of searches: the clauses say them, and nothing runs.
ghost use Rattle.motion_numbers.specs.Laws.{AreWays, AreSearches};

/// The way to rest from a step, braking by the same each cycle, and the greatest step whose way
/// fits a room.
pub fn ways_to_rest()
    ensures { AreWays }
{}

/// What a search for the greatest number that passes a test finds.
pub fn searches_find_the_greatest()
    ensures { AreSearches }
{}
