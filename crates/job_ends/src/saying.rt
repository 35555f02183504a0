// What a job says in place of its text.

ghost use Rattle.std.specs.Prelude.{◌≡◌};
ghost use Rattle.job_ends.specs.Ends.{EndsBy, EndsUnread, SaysLine};
ghost use Rattle.job_ends.specs.Plans.{refused_plan};

use crate::lines::{named_line, refused_line};
use crate::status::Status;
use motion_history::TextRefused;
use outside::{FilesFault, Sink, write_all};
use std::alloc::{AllocError, Global};
use trace_text::parts_are_beginnings;

/// Says a line, with this status where it is written.
pub fn say_all<K: Sink>(line: &[u8], status: Status, out: &mut K) -> Status
    ensures { EndsBy (record { count = K.count out.old; told = K.told out.old })
        (record { count = K.count out.new; told = K.told out.new })
        (record { status = status; text = line.now }) result }
{
    // laws
    parts_are_beginnings();
    match write_all(out, line) {
        Ok(()) => status,
        Err(_) => Status::WriteFault,
    }
}

/// Says a line if there was memory for it, with this status where it is written.
pub fn say<K: Sink>(line: Result<Vec<u8>, AllocError>, status: Status, out: &mut K) -> Status
    ensures { SaysLine (record { count = K.count out.old; told = K.told out.old })
        (record { count = K.count out.new; told = K.told out.new }) line status result }
{
    match line {
        Ok(line) => say_all(line.as_slice(), status, out),
        Err(_) => Status::OutOfMemory,
    }
}

/// Says where the text of a file is refused, and by which rule; the file is that of this word.
pub fn say_refused<K: Sink>(
    alloc: Global,
    word: u8,
    name: &str,
    refused: &TextRefused,
    out: &mut K,
) -> Status
    ensures { EndsBy (record { count = K.count out.old; told = K.told out.old })
        (record { count = K.count out.new; told = K.told out.new })
        (refused_plan word name.now refused.now) result }
{
    say(
        refused_line(alloc, name, refused),
        Status::TextRefused {
            word,
            place: refused.place,
            rule: refused.rule,
        },
        out,
    )
}

/// Says why a file can't be read; it is that of this word.
pub fn say_unread<K: Sink>(
    alloc: Global,
    word: u8,
    name: &str,
    fault: FilesFault,
    out: &mut K,
) -> Status
    ensures { EndsUnread word name.now fault
        (record { count = K.count out.old; told = K.told out.old })
        (record { count = K.count out.new; told = K.told out.new }) result }
{
    match fault {
        FilesFault::Failed => say(
            named_line(alloc, b"cannot read ", name),
            Status::ReadFault { word },
            out,
        ),
        FilesFault::TooLong => say(
            named_line(alloc, b"too long ", name),
            Status::TooLong { word },
            out,
        ),
        FilesFault::OutOfMemory => Status::OutOfMemory,
    }
}
