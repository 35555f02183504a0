// How a job of the program ends.

ghost use Rattle.std.specs.Prelude.{◌≡◌};
ghost use Rattle.job_ends.specs.Ends as spec;
ghost use Rattle.job_ends.specs.Exits.{exit_of};

use motion_history::Rule;
use trace_text::TraceFault;

/// How the program ends. `word` is the number of the word that names the file, from 0.
#[derive(Clone, Copy, Debug, PartialEq, Eq)]
pub enum Status {
    /// The input was read to its end, or in a run every task has ended, and the trace is written.
    Ok,
    /// The trace is legal and has this many entries.
    Legal { entries: u64 },
    /// The first record that isn't the machine's.
    Illegal { record: u64 },
    /// The words are none of the program's.
    Usage,
    /// The text of the file is refused: at its first place that breaks a rule, by the first rule
    /// there.
    TextRefused { word: u8, place: u64, rule: Rule },
    /// The file isn't there, or reading it failed.
    ReadFault { word: u8 },
    /// The file is longer than 16 MiB, or than 256 MiB where it is to be a trace.
    TooLong { word: u8 },
    /// Writing failed.
    WriteFault,
    /// A thread couldn't be started.
    ThreadRefused,
    /// A cycle came with none left; or in a run all cycles were made, and a task lives.
    CyclesOver,
    /// An event came with no room left in the history.
    HistoryFull,
    /// No memory was left.
    OutOfMemory,
}

impl Status {
    /// The exit status of the process.
    pub fn exit(&self) -> u8
        ensures { result ≡ exit_of self.now }
    {
        match self {
            Status::Ok | Status::Legal { .. } => 0,
            Status::Illegal { .. } => 1,
            Status::Usage => 2,
            Status::TextRefused { .. } => 3,
            Status::ReadFault { .. } => 4,
            Status::TooLong { .. } => 5,
            Status::WriteFault => 6,
            Status::ThreadRefused => 7,
            Status::CyclesOver => 8,
            Status::HistoryFull => 9,
            Status::OutOfMemory => 10,
        }
    }
}

/// The status by what became of the writing of a text.
pub fn status_by(status: Status, written: Result<(), TraceFault>) -> Status
    ensures { result ≡ spec.status_by status written }
{
    match written {
        Ok(()) => status,
        Err(TraceFault::WriteFault) => Status::WriteFault,
        Err(TraceFault::OutOfMemory) => Status::OutOfMemory,
    }
}
