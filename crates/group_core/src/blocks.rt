// The blocks of a group.

pub mod enable;
pub mod halts;
pub mod line;
pub mod reset;
