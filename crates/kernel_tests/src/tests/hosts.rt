// The host's files and output: reads and writes that a signal interrupts or that fail in the
// middle, and an output that takes nothing.

use outside::{FilesFault, HostFiles, Sink, SinkFailed, StdSink, WriterSink, write_all};
use std::fmt;
use std::io::{self, ErrorKind, Read, Write};
use std::test::Fail;

// A reader that a signal interrupts before each byte, and that ends by an error, if it has one.
#[derive(Drop)]
struct Halting {
    left: &'static [u8],
    interrupted: bool,
    error: Option<ErrorKind>,
}

impl Read for Halting {
    fn read(&mut self, buf: &mut [u8]) -> io::Result<usize> {
        self.interrupted = !self.interrupted;
        if self.interrupted {
            return Err(io::Error::from(ErrorKind::Interrupted));
        }
        let [first, left @ ..] = self.left else {
            return match self.error {
                Some(kind) => Err(io::Error::from(kind)),
                None => Ok(0),
            };
        };
        if buf.is_empty() {
            return Ok(0);
        }
        buf[0] = *first;
        self.left = left;
        Ok(1)
    }
}

#[test]
fn reads_no_shorter_file_where_a_read_fails(rt: HostRuntime) -> Result<(), Fail> {
    let failed = Some(ErrorKind::BrokenPipe);
    let memory = Some(ErrorKind::OutOfMemory);
    let cases: [(Option<ErrorKind>, u64, Result<(), FilesFault>); 5] = [
        (None, 3, Ok(())),
        (failed, 9, Err(FilesFault::Failed)),
        (failed, 3, Err(FilesFault::Failed)),
        (memory, 9, Err(FilesFault::OutOfMemory)),
        (failed, 2, Err(FilesFault::TooLong)),
    ];
    let mut files = HostFiles::new(&rt);
    let mut into = Vec::new(rt.alloc());
    for (error, budget, result) in cases {
        let reader = Halting {
            left: b"abc",
            interrupted: false,
            error,
        };
        assert_eq!(rt;
            files.read_opened(Ok(reader), &mut into, budget),
            result,
            "within {budget}"
        );
        assert_eq!(rt; into.as_slice(), b"abc".as_slice(), "within {budget}");
    }
    Ok(())
}

// A writer that takes one byte of a trace segment and keeps it, and that fails once it has this
// many. A signal interrupts it before each byte.
#[derive(Drop)]
struct OneByOne {
    bytes: Vec<u8>,
    most: usize,
    interrupted: bool,
}

impl Write for OneByOne {
    fn write(&mut self, buf: &[u8]) -> io::Result<usize> {
        let [first, ..] = buf else {
            return Ok(0);
        };
        self.interrupted = !self.interrupted;
        if self.interrupted {
            return Err(io::Error::from(ErrorKind::Interrupted));
        }
        if self.bytes.len() >= self.most {
            return Err(io::Error::from(ErrorKind::StorageFull));
        }
        self.bytes.push(*first)?;
        Ok(1)
    }

    fn flush(&mut self) -> io::Result<()> {
        Ok(())
    }
}

#[test]
fn writes_all_to_a_writer_of_short_and_interrupted_writes(rt: HostRuntime) -> Result<(), Fail> {
    let cases: [(usize, Result<(), SinkFailed>, &[u8]); 3] = [
        (9, Ok(()), b"hello"),
        (5, Ok(()), b"hello"),
        (4, Err(SinkFailed), b"hell"),
    ];
    for (most, result, bytes) in cases {
        let mut writer = OneByOne {
            bytes: Vec::new(rt.alloc()),
            most,
            interrupted: false,
        };
        let mut sink = WriterSink::over(&mut writer);
        assert_eq!(rt; write_all(&mut sink, b"hello"), result, "{most} bytes");
        assert_eq!(rt; writer.bytes.as_slice(), bytes, "{most} bytes");
    }
    Ok(())
}

// A host whose output takes nothing, or fails.
#[derive(Drop)]
struct Refusing {
    fails: bool,
}

impl Print for Refusing {
    fn print<D: fmt::Display + Drop>(&self, _value: D) -> io::Result<()> {
        Ok(())
    }

    fn println<D: fmt::Display + Drop>(&self, _value: D) -> io::Result<()> {
        Ok(())
    }

    fn write_all(&self, _bytes: &[u8]) -> io::Result<()> {
        Ok(())
    }

    fn write_some(&self, _bytes: &[u8]) -> io::Result<usize> {
        if self.fails {
            return Err(io::Error::from(io::ErrorKind::BrokenPipe));
        }
        Ok(0)
    }
}

#[test]
fn an_output_that_takes_nothing_is_a_fault(rt: HostRuntime) {
    for fails in [false, true] {
        let host = Refusing { fails };
        let mut sink = StdSink::new(&host);
        assert_eq!(rt; sink.write(b""), Ok(0), "{fails}");
        assert_eq!(rt; sink.write(b"abc"), Err(SinkFailed), "{fails}");
        assert_eq!(rt; write_all(&mut sink, b"abc"), Err(SinkFailed), "{fails}");
    }
}
