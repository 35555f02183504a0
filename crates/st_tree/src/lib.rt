//! The tree of a program in Structured Text (IEC 61131-3, in this project's profile): its tasks,
//! their variables and blocks, their statements and expressions; and its parts one after another,
//! an operand before its operator, an expression before what it is for. A tree spells its parts, so
//! a text is read in two passes, the first of which needs no tree. It stands on the names and modes
//! of a machine alone, and has no code. Begin with `program`, then `statement`, then `expression`;
//! of the parts with specs/Parts, then specs/Places.
#![tactic(auto)]

mod call;
mod expression;
mod part;
mod program;
mod statement;

pub use call::{Given, Key};
pub use expression::{Expr, Operator, Term};
pub use part::Part;
pub use plc_types::{BufferMode, Flag, Name};
pub use program::{StProgram, Start, Task, Variable};
pub use statement::{Branch, Stmt};
