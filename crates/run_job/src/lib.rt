//! The job `run`: the drives and the tasks of a machine in threads of their own, and the trace of
//! the one history that they make. It stands on `motion_plant`; begin at [`run_files`].
#![tactic(auto)]

mod names;
mod reading;
mod run;
mod trace;

pub use job_ends::Status;
pub use motion_plant::PlantJob;
pub use names::RunNames;
pub use outside::{Files, Gate, Host, MOST_JOBS, Sink, Spawner};
pub use run::run_files;
