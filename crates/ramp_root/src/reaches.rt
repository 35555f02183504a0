// The greatest step from which braking fits a way.
ghost use Rattle.std.specs.Prelude.{◌≡◌, ◌+◌, ◌≤◌};
ghost use Rattle.motion_numbers.specs.Run.{reach_of};

use crate::counts::greatest_count_counted;
use motion_numbers::{Counter, MOST_STEP, MOST_WAY, ways_to_rest};
use std::sync::ledger::Ledger;

/// The greatest step from which braking by `d` each cycle needs no more than the way, in internal
/// units. It takes one greatest count.
// It is needed about twice in a move, and out of line it leaves the other cycles short.
#[inline(never)]
pub fn reach<L: Ledger>(way: u64, d: u64, steps: &mut Counter<L>) -> u64
    requires least { 1 ≤ d }
    requires most { d ≤ MOST_STEP }
    requires way { way ≤ MOST_WAY }
    ensures value { result ≡ reach_of way d }
    ensures cost { steps.new ≤ steps.old + 64 }
{
    // laws
    ways_to_rest();
    let terms = greatest_count_counted(way as u128, d, 1, steps);
    if terms == 0 {
        return 0;
    }
    let rest = way - d * (terms * (terms - 1) / 2);
    (terms - 1) * d + d.min(rest / terms)
}
