//! How a program uses the kernel as a library: five short callers, each proved. It stands on
//! `motion_kernel`, `drive_sim` and the texts of traces, and on nothing that the program adds.
//! Begin at [`move_axis`], the shortest; docs/library.md walks through all five.
#![tactic(auto)]

mod drive_fault;
mod full_history;
mod group_line;
mod one_axis;
mod written_trace;

pub use drive_fault::{error_of_axis, reset_axis};
pub use full_history::{NotMade, try_call, try_cycle};
pub use group_line::{cycle_drives, draw_line, machine_of_a_group};
pub use one_axis::{call_to_end, cycle_drive, last_row, machine_of_one_axis, move_axis, run_block};
pub use written_trace::{verify_text, write_run};
