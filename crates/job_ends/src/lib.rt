//! How a job of the program ends: its status, and what is said in place of its text. Here is what
//! all jobs share: the status of the program, the reading of a file within its limit, how a job
//! ends by its plan, and what its end over files says of its status (specs/Courses); and the machine
//! that the first of two files configures. It stands on `outside`, `machine_config` and
//! `trace_text`. Begin at [`Status`] and [`say`].
#![tactic(auto)]

mod files;
mod lines;
mod machine;
mod saying;
mod status;

pub use files::read_text;
pub use lines::joined;
pub use machine::{MOST_BYTES, read_machine, whole};
pub use outside::{Files, FilesFault, OutOfMemory, Sink};
pub use saying::{say, say_all, say_refused, say_unread};
pub use status::{Status, status_by};
