//! A plant: each drive and each task in a thread of its own, and the cycles in the caller's thread.
//! However their turns interleave, one history is made, and each drive takes its outputs in order,
//! each once. It stands on `kernel_turn`, `drive_jobs` and `task_run`; begin at [`run_plant`].
#![tactic(auto)]

mod caller;
mod cycles;
mod ending;
mod fault;
mod finish;
mod give_up;
mod joins;
mod laws;
mod plant;
mod plant_job;
mod rooms;
mod starts;
mod task_job;

pub use ending::{RunEnding, ending_of};
pub use fault::PlantFault;
pub use finish::PlantEnd;
pub use laws::{cycles_end_with_the_tasks, cycles_take_the_answers};
pub use plant::{Plant, run_plant};
pub use plant_job::{PlantJob, PlantJobEnd};
pub use task_job::{TaskJob, TaskJobEnd};
