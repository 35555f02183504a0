//! The operands of an expression in Structured Text (IEC 61131-3, in this project's profile) while
//! its nodes are read one after another: the type of each, the value of a constant, and whether a
//! type was wrong. Begin with specs/Expressions.
#![tactic(auto)]

mod function;
mod number;
mod operand;
mod operands;

pub use number::{Literal, literal_of};
pub use operand::{Operand, type_of, value_of};
pub use operands::Operands;
