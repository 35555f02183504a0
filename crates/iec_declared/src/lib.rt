//! What a text in Structured Text declares (IEC 61131-3, in this project's profile): enumerations,
//! variables, constants and blocks, of the whole text and of each program, found while the nodes of
//! the tree are read one after another, and the least line that breaks a rule. Begin with
//! specs/Noted.
#![tactic(auto)]

mod constants;
mod declarations;
mod declared;
mod enumerations;
mod known;
mod noted;
mod types;

pub use declared::Declarations;
pub use known::{
    Clause, Counts, Declaration, Enumeration, Expected, MotionBlock, Range, Shape, Used,
};
