// Writing a trace: its records, and its text in pieces.

pub mod block_calls;
pub mod cycle_rows;
pub mod entries;
pub mod fields;
pub mod machine;
pub mod machine_record;
pub mod parts;
pub mod pieces;
pub mod write;
