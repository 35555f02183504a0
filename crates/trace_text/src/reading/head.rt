// The first two records of a trace.

ghost use Rattle.std.specs.Prelude.{◌≡◌, map};
ghost use Rattle.line_text.specs.Texts.{texts};
ghost use Rattle.trace_text.specs.reading.Reading as spec;
ghost use Rattle.trace_text.specs.Records.{header_fields};

use crate::command::Command;
use crate::records::FIELDS;
use line_text::says;
use motion_history::TraceVersion;

/// The names of the columns.
pub fn header() -> [&'static [u8]; FIELDS]
    ensures { map (λ f. f.now) result ≡ header_fields }
{
    [
        b"kind", b"a", b"b", b"c", b"d", b"e", b"f", b"g", b"h", b"i", b"j", b"k",
    ]
}

/// Whether fields are the names of the columns.
pub fn is_header(fields: &[&[u8]]) -> bool
    ensures { result ≡ spec.are_same (texts fields.now) header_fields }
{
    are_same(fields, &header())
}

// Whether fields are those of another list.
fn are_same(fields: &[&[u8]], others: &[&[u8]]) -> bool
    ensures { result ≡ spec.are_same (texts fields.now) (texts others.now) }
{
    if fields.len() != others.len() {
        return false;
    }
    for (i, field) in fields.iter().enumerate() {
        if !says(field, others[i]) {
            return false;
        }
    }
    true
}

/// The version of a trace.
#[tactic(auto, unfolding(crate::specs::reading::Reading::version_of, crate::specs::Words::version_text))]
pub fn version_of(text: &[u8]) -> Option<TraceVersion>
    ensures { result ≡ spec.version_of text.now }
{
    if says(text, b"1") {
        Some(TraceVersion::One)
    } else if says(text, b"2") {
        Some(TraceVersion::Two)
    } else if says(text, b"3") {
        Some(TraceVersion::Three)
    } else {
        None
    }
}

/// Who made a trace.
#[tactic(auto, unfolding(crate::specs::reading::Reading::command_of, crate::specs::Words::command_text))]
pub fn command_of(text: &[u8]) -> Option<Command>
    ensures { result ≡ spec.command_of text.now }
{
    if says(text, b"bench") {
        Some(Command::Bench)
    } else if says(text, b"run") {
        Some(Command::Run)
    } else {
        None
    }
}
