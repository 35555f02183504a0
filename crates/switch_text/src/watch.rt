// A switch under way: whether it is on after the cycles so far.

ghost use Rattle.std.specs.Prelude.{◌≡◌};
ghost use Rattle.switch_text.specs.Columns as columns;
ghost use Rattle.switch_text.specs.Watches as spec;

use crate::edge::{Edge, edge_by};
use crate::switch::{Switch, is_on_after};
use plc_types::AxisRow;

/// A switch, and whether it is on after the cycles so far.
#[derive(Clone, Copy)]
pub struct Watch {
    pub switch: Switch,
    pub on: bool,
}

// The setpoint of an axis in the rows of a cycle; 0 where it has no row.
#[tactic(auto, unfolding(crate::specs::Columns::setpoint_of))]
fn setpoint_of(axis: u8, rows: &[AxisRow]) -> i64
    ensures { result ≡ columns.setpoint_of axis rows.now }
{
    rows.get(axis as usize).map_or(0, |row| row.setpoint)
}

impl Watch {
    /// A switch before the first cycle: it is off.
    pub fn new(switch: Switch) -> Watch
        ensures { result ≡ spec.watch_of switch }
    {
        Watch { switch, on: false }
    }

    /// Goes on by the cycle of this number, whose rows these are, and answers the switch's edge
    /// there, if it goes on or off.
    #[tactic(auto, unfolding(crate::specs::Watches::watch_after, crate::specs::Watches::edge_after))]
    pub fn go_on(&mut self, rows: &[AxisRow], cycle: u64) -> Option<Edge>
        ensures after { self.new ≡ spec.watch_after rows.now self.old }
        ensures edge { result ≡ spec.edge_after cycle rows.now self.old }
    {
        let was = self.on;
        self.on = is_on_after(&self.switch, was, setpoint_of(self.switch.axis, rows));
        edge_by(self.switch.name, cycle, was, self.on)
    }
}
