//! By which events of the state diagrams calls and cycles change the states of an axis and of a
//! group (PLCopen Motion Control Part 1 and Part 4), as tables, and the law that the diagram leads
//! from the old state to the new one by exactly these events, in their order. It stands on
//! axis_core and group_core, and has no code but its laws. Begin with specs/Axis.antt.
#![tactic(auto)]

mod laws;

pub use laws::{axes_change_by_their_events, events_are_few, groups_change_by_their_events};
