//! The tree of a text in Structured Text (IEC 61131-3, in this project's profile), flat: its nodes
//! stand one after another in the order of the text, what is joined before what joins it, and what
//! is declared or given before its end. A node has the line where it was read. Here are also the
//! words that are not reserved and that the grammar knows by their place: types, function blocks
//! and functions. Begin with `node`.
#![tactic(auto)]

mod elementary;
mod function;
mod laws;
mod motion;
mod node;
mod operator;
mod section;
mod standard;

pub use elementary::{ELEMENTARY, Elementary, elementary_named};
pub use function::{Function, function_named};
pub use iec_tokens::{Name, Number};
pub use laws::names_are_read_back;
pub use motion::{Motion, motion_named};
pub use node::{Node, Part};
pub use operator::Operator;
pub use section::Section;
pub use standard::{Standard, standard_named};
