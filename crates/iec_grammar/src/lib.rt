//! The grammar of Structured Text (IEC 61131-3, in this project's profile) as one table: what
//! follows where a token meets what is expected, and what it says of the tree. [`read_tree`] reads
//! a text by it. Begin with specs/Table, then specs/Reading.
#![tactic(auto)]

mod constants;
mod counts;
mod declarations;
mod expressions;
mod files;
mod item;
mod laws;
mod pile;
mod places;
mod reader;
mod reading;
mod row;
mod statements;
mod table;

pub use laws::faults_are_final;
pub use pile::{Pile, push};
pub use reading::{Reading, read_tree};
