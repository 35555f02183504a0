//! The run of a bench: its events one after another on a kernel, with simulated drives in step. It
//! stands on `motion_kernel`, on `machine_drives` for the drives, on `bench_text` for the events,
//! and on `hot_standby`, by which a second kernel may follow and take over. Begin at [`run`]; what
//! a run of any events is stands in specs/Run, and whoever makes events of their own begins at
//! [`make_call`].
#![tactic(auto)]

mod bench;
mod events;
mod laws;

pub use bench::{Ran, RunFault, histories_are_legal, run};
pub use events::{make_call, make_cycle, make_end};
pub use laws::{
    ended_runs_stay, events_keep_drives_in_step, room_is_enough, runs_are_in_step,
    runs_end_for_their_cause,
};
pub use motion_history::OutOfMemory;
pub use motion_laws::histories_keep_their_laws;
