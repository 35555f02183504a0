// An output behind a writer of std, as that of the process is.
ghost use Rattle.std.specs.Prelude.{◌≡◌, ◌≤◌, IfOk, length};
ghost use Rattle.std.specs.Io.KnownBytes.{WriteAppends};

use crate::{Sink, SinkFailed};
use std::io::{self, ErrorKind, Printer, Write};

/// An output behind a writer. It says what the writer holds, where that is known.
#[derive(Drop)]
pub struct WriterSink<W: Write> {
    writer: W,
    faults: u64,
}

/// The output of the process. It gives nothing of what was written.
pub type StdSink<'a, R> = WriterSink<Printer<'a, R>>;

impl<W: Write> WriterSink<W> {
    /// No fault yet.
    pub fn over(writer: W) -> WriterSink<W>
        ensures count { ⟦<WriterSink<W> as Sink>⟧.count result ≡ 0 }
        ensures told { ⟦<WriterSink<W> as Sink>⟧.told result ≡ W.contents writer }
    {
        WriterSink { writer, faults: 0 }
    }
}

impl<'a, R: Print> WriterSink<Printer<'a, R>> {
    /// No fault yet.
    pub fn new(rt: &'a R) -> StdSink<'a, R>
        ensures { ⟦<WriterSink<Printer<'a, R>> as Sink>⟧.count result ≡ 0 }
    {
        WriterSink::over(io::writer(rt))
    }
}

impl<W: Write> Sink for WriterSink<W> {
    ghost count = { λ sink. sink.faults };

    ghost told = { λ sink. W.contents sink.writer };

    // A writer that takes nothing of a piece with bytes has failed.
    fn write(&mut self, bytes: &[u8]) -> Result<usize, SinkFailed> {
        if bytes.is_empty() {
            return Ok(0);
        }
        match write_some(&mut self.writer, bytes) {
            Ok(taken) if taken > 0 => Ok(taken),
            _ => {
                self.faults = self.faults.saturating_add(1);
                Err(SinkFailed)
            }
        }
    }
}

// What the writer answers of a piece. A write that a signal interrupts is made again.
fn write_some<W: Write>(writer: &mut W, bytes: &[u8]) -> io::Result<usize>
    ensures bound { IfOk result (λ taken. taken ≤ length bytes.now) }
    ensures bytes { WriteAppends (W.contents writer.old) (W.contents writer.new) result bytes.now }
{
    for _ in 0..u64::MAX {
        match writer.write(bytes) {
            Err(error) if error.kind() == ErrorKind::Interrupted => {}
            result => return result,
        }
    }
    Err(io::Error::from(ErrorKind::TimedOut))
}
