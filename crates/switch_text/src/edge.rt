// The edges of a switch.

ghost use Rattle.std.specs.Prelude.{◌≡◌};
ghost use Rattle.switch_text.specs.Edges as spec;

use plc_types::Name;

/// A switch goes on or off at a cycle.
#[derive(Clone, Copy)]
pub struct Edge {
    /// The name of the switch.
    pub name: Name,
    /// The number of the cycle, counted from 1.
    pub cycle: u64,
    /// Whether it goes on.
    pub on: bool,
}

/// The edge of a switch at a cycle, by whether it was on and whether it is: none where both are the
/// same.
#[tactic(auto, unfolding(crate::specs::Edges::edge_by))]
pub fn edge_by(name: Name, cycle: u64, was: bool, is: bool) -> Option<Edge>
    ensures { result ≡ spec.edge_by name cycle was is }
{
    match (was, is) {
        (false, false) | (true, true) => None,
        (false, true) | (true, false) => Some(Edge {
            name,
            cycle,
            on: is,
        }),
    }
}
