//! Task programs: the calls of a PLC's tasks as a text, read to the instructions of each task. It
//! stands on `machine_words` and `line_text`, as benches do; what runs a program is `task_run`.
//! Begin at [`read_program`] and [`Instruction`]; the forms of lines are a table in specs/Forms.
#![tactic(auto)]

mod call;
mod form;
mod item;
mod name;
mod program;
mod reader;
mod reading;
mod version;
mod wait;

pub use plc_types::Flag;
pub use program::{Instruction, MOST_INSTRUCTIONS, MOST_TIMES, Program};
pub use reading::read_program;
