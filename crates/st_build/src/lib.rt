//! Tasks in Structured Text (IEC 61131-3, in this project's profile), read: a text is a program
//! exactly where no rule is broken, S1 to S6, and else the first is reported. `st_check` goes over
//! the text first and needs no tree; where it finds no rule broken, the trees are made here of the
//! parts that they spell. Begin with [`read_st`] and specs/Spelled, then st_check's specs/Reading
//! and st_grammar's specs/Table; of the trees with `program`, then `statement`, then `expression`.
#![tactic(auto)]

mod cursor;
mod expression;
mod program;
mod reading;
mod statement;

pub use program::program_of;
pub use reading::read_st;
