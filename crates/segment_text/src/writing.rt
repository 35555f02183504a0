// Writing a header: its fields, its records, and the whole.

pub mod command;
pub mod field;
pub mod header;
pub mod object;
