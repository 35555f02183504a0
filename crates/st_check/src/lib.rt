//! Which rule of Structured Text a text breaks first, S1 to S6, or what it is read as: the first
//! pass of a reader. It goes over a text's tokens with a pile of what is expected, by the table of
//! `st_grammar`, and notes what names name and types are. Begin with specs/Reading, then
//! specs/Noted, which says what each note of the table does, then specs/Checked.
#![tactic(auto)]

mod blocks;
mod calls;
mod checker;
mod declarations;
mod expressions;
mod index;
mod keys;
mod known;
mod noted;
mod pile;
mod reader;
mod statements;
mod text;
mod walk;

pub use st_tree::Part;
pub use text::{Told, check_text};
