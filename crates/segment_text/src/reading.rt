// Reading a trace segment: its fields, its lines, and the whole.

pub mod axis;
pub mod before;
pub mod column;
pub mod command;
pub mod group;
pub mod instance;
pub mod line;
pub mod path;
pub mod read;
pub mod rule;
