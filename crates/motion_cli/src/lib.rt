//! The program `motion`: from its words and files to the text that it writes and the status that it
//! ends with. It stands on the crates of the jobs, one for each command, and on `command_words`.
//! Begin at [`top`]: its clauses are what is proved of the program, and the headline is among them.
#![tactic(auto)]

mod laws;
mod program;
mod serve;
mod usage;

pub use command_words::{Job, Words, words_from};
pub use job_ends::Status;
pub use laws::{
    bench_traces_are_legal, run_traces_are_legal, st_traces_are_legal,
    written_histories_keep_their_laws,
};
pub use outside::{Files, Gate, Host, OutOfMemory, Sink, Spawner};
pub use program::{top, top_of_args};
pub use run_job::PlantJob;
