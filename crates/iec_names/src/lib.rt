//! The names of a text in Structured Text (IEC 61131-3, in this project's profile) and what they
//! name: those of the machine and of the whole text, and those of the program that is read. No
//! case of letters counts. A [`Scopes`] finds each in a few steps. Begin with `sort`, then
//! specs/Scopes.
#![tactic(auto)]

mod scopes;
mod sort;
mod table;

pub use scopes::Scopes;
pub use sort::{Elements, Known, Sort};
pub use table::Table;
