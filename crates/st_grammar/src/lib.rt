//! The grammar of Structured Text (IEC 61131-3, in this project's profile) as one table: what
//! follows where a token meets what is expected. It says what each token means by itself, as a
//! note; what names name and types are is left to the reader above. Begin with specs/Table, which
//! stands beside the grammar of docs/formats.md line by line, then specs/Notes.
#![tactic(auto)]

mod expressions;
mod item;
mod note;
mod statements;
mod table;
mod tasks;

pub use item::Item;
pub use note::{Note, Row};
pub use st_tokens::{Sign, Token, Word};
pub use st_tree::{Flag, Operator};
pub use table::row_of;
