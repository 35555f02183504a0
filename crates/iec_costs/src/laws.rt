// Laws of costs: each is the contract of a function that does nothing.

ghost use Rattle.iec_costs.specs.Turns.{ReachTheLast};
ghost use Rattle.iec_costs.specs.declared.turns.Bounds.{Bounds};

/// The body of a FOR runs for the values from the first by its step, as long as they are not past
/// the last.
pub fn turns_reach_the_last()
    ensures { (b : Bounds) → ReachTheLast b }
{}
