//! The run of a machine with tasks in Structured Text: round after round, in which each task that
//! lives makes one scan and then one cycle is made, on one thread. What the run is stands in
//! specs/Rounds, and what a scan is in st_exec's specs/Scan. It stands on `st_exec`, which runs the
//! tasks, and on `bench_run` for the events. Begin at [`run_rounds`].
#![tactic(auto)]

mod cell;
mod laws;
mod player;
mod run;
mod scan;
mod turns;

pub use cell::Controller;
pub use laws::{rounds_are_in_step, rounds_end_for_their_cause, tasks_make_their_scans};
pub use run::run_rounds;
