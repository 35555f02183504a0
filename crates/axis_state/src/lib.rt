//! The state diagrams of an axis (PLCopen Motion Control Part 1) and of a group (Part 4), and their
//! events. Here is also what it is for the rows of an axis to keep its limits. It stands on
//! `plc_types` and `kin_core`. Begin at [`axis_next`] and [`group_next`], the tables of the
//! diagrams.
#![tactic(auto)]

mod diagram;
mod group_diagram;
#[cfg(test)]
mod group_tests;
#[cfg(test)]
mod tests;

pub use diagram::{AxisEvent, axis_next};
pub use group_diagram::{GroupEvent, group_next, groups_never_home};
