//! The words of a call of the program `motion`, and what they ask for. The crate `clap` reads the
//! words; what it answers is proved to be the grammar in specs/, both ways. Nothing here opens a
//! file. Begin at [`asked`] and [`Request`].
#![tactic(auto)]

mod commands;
mod numbers;
mod request;
mod words;

pub use motion_numbers::OutOfMemory;
pub use request::{Job, Request, asked};
pub use words::{Words, words_from};
