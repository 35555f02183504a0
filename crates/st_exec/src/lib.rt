//! Structured Text tasks, run: what a scan of a task's tree is, the code that a tree is compiled
//! to, and the machine that runs it and makes the calls of the scan, each once and in order. It
//! stands on the trees of `st_tree` and on the units of `fixed_units`. Begin with specs/Scan.antt,
//! then `task`.
#![tactic(auto)]

mod code;
mod emit;
mod from_end;
mod given;
mod instruction;
mod laws;
mod listed;
mod machine;
mod task;
mod values;
mod walk;

pub use code::{StCode, TaskCode, compile};
pub use instruction::{Act, Instruction, Use};
pub use laws::{scans_ask_in_order, scans_call_the_machine, scans_have_their_operands};
pub use motion_numbers::OutOfMemory;
pub use plc_types::{Inputs, Outputs};
pub use task::{StNext, StTask};
