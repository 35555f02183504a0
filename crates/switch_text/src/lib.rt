//! Digital cam switches: where each is on, by the setpoints of its axis, and its edges; the switches
//! of a file, read, and the lines of their edges in a trace, written. A switch is on within its
//! places, in one direction or both, with its hysteresis. It stands on `line_text` and
//! `machine_words` for lines and words, and on `trace_text` for the trace. Begin at [`Watch`],
//! [`read_switches`] and [`write_edges`]; that the edges are exactly the turns is the law
//! [`edges_are_as_said`].
#![tactic(auto)]

mod edge;
mod laws;
mod lines;
mod name;
mod reader;
mod reading;
mod switch;
mod switches;
mod watch;
mod writing;

pub use edge::Edge;
pub use laws::{edges_are_as_said, on_is_as_said, watches_go_on};
pub use motion_history::{Config, TextFault, TextRefused};
pub use plc_types::{AxisRow, Name};
pub use reading::read_switches;
pub use switch::{MOST_PLACE, MOST_SWITCHES, Switch, is_switch};
pub use switches::Switches;
pub use trace_text::{Trace, TraceFault};
pub use watch::Watch;
pub use writing::write_edges;
