//! The job `gen`: the load of a seed is generated and run, and its line written. A load is a bench
//! of 2,000 rounds of moves that a seed determines: the same seed gives the same bench for ever, so
//! figures can be compared. It stands on `bench_text`, whose type a bench is, `bench_run` and
//! `job_ends`. Begin at [`generate`] and [`run_load`]; the line's counts are in `counts`.
#![tactic(auto)]

mod counts;
mod draws;
mod generating;
mod laws;
mod load;
mod machine;
mod round;

pub use generating::generate;
pub use job_ends::Status;
pub use laws::loads_fill_their_room;
pub use load::run_load;
pub use outside::Sink;
