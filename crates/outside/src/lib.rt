//! What the program asks of the world outside: files, an output, threads and gates, and what stands
//! in for them in tests. The core asks traits alone, which the process implements and tests stand
//! in for. It stands on `motion_numbers` and `crossbeam_utils`. Begin at [`Files`], [`Sink`],
//! [`Spawner`] and [`Gate`].
#![tactic(auto)]

mod files;
mod gate;
mod hold_gate;
mod host_files;
mod memory_files;
mod memory_sink;
mod sink;
mod spawner;
mod worker;
mod writer_sink;

pub use files::{Files, FilesFault};
pub use gate::{Gate, OpenGate};
pub use hold_gate::HoldGate;
pub use host_files::HostFiles;
pub use memory_files::MemoryFiles;
pub use memory_sink::MemorySink;
pub use motion_numbers::OutOfMemory;
pub use sink::{Sink, SinkFailed, write_all};
pub use spawner::{Host, Spawner, StartFault};
pub use worker::Worker;
pub use writer_sink::{StdSink, WriterSink};

/// How many jobs a spawner starts at most.
pub const MOST_JOBS: u32 = 1_000_000_000;
