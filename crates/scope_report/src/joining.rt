// Shares are put together, axis by axis and block by block.

ghost use Rattle.std.specs.Prelude.{◌≡◌, length};
ghost use Rattle.scope_report.specs.Joining.{CanMerge, CanSum, Merges, Sums};

use crate::counts::{Counts, sum};
use crate::part::Part;

/// Puts the parts of others after these.
pub fn join_parts(parts: &mut [Part], others: &[Part])
    requires len { length others.now ≡ length parts.old }
    requires few { CanMerge parts.old others.now }
    ensures { Merges parts.old others.now parts.new }
{
    for place in 0..parts.len() {
        parts[place] = parts[place].with(&others[place]);
    }
}

/// Adds the counts of others to these.
pub fn join_counts(counts: &mut [Counts], others: &[Counts])
    requires len { length others.now ≡ length counts.old }
    requires few { CanSum counts.old others.now }
    ensures { Sums counts.old others.now counts.new }
{
    for place in 0..counts.len() {
        counts[place] = sum(counts[place], others[place]);
    }
}
