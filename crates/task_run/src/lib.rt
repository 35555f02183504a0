//! Runs the program of one task: which call comes next, and when it has ended; and by a caller, to
//! its end. It stands on `plc_program`, and on no kernel: whoever answers calls is a [`Caller`].
//! Begin at [`TaskRun`] and [`run_task`].
#![tactic(auto)]

mod caller;
mod last;
mod outputs;
mod place;
mod run;
mod runner;

pub use caller::{Caller, LoggedCall};
pub use run::{Next, TaskRun};
pub use runner::{run_task, tasks_have_their_own_lines};
