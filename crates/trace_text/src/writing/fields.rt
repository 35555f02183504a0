// Fields of a trace that are written as its kind of record asks.

ghost use Rattle.std.specs.Prelude.{◌≡◌};
ghost use Rattle.trace_text.specs.Words as spec;
ghost use Rattle.trace_text.specs.Records as records;

use crate::command::Command;
use itoa::Buffer;
use motion_history::TraceVersion;
use plc_types::{BlockKind, BufferMode, Input, mode_name, takes};

/// The version of a trace.
#[tactic(auto, unfolding(crate::specs::Words::version_text))]
pub fn version_text(version: TraceVersion) -> &'static str
    ensures { result.now ≡ spec.version_text version }
{
    match version {
        TraceVersion::One => "1",
        TraceVersion::Two => "2",
        TraceVersion::Three => "3",
    }
}

/// Who made the trace.
#[tactic(auto, unfolding(crate::specs::Words::command_text))]
pub fn command_text(command: Command) -> &'static str
    ensures { result.now ≡ spec.command_text command }
{
    match command {
        Command::Bench => "bench",
        Command::Run => "run",
    }
}

/// The buffer mode of a kind; in version 3 an absolute move has its direction after a colon.
#[tactic(auto, unfolding(crate::specs::Records::mode_text))]
pub fn mode_text(version: TraceVersion, kind: BlockKind, mode: BufferMode) -> &'static str
    ensures { result.now ≡ records.mode_text version kind mode }
{
    match (version, kind) {
        (TraceVersion::Three, BlockKind::MoveAbsolute) => directed_text(mode),
        _ => mode_name(mode),
    }
}

// The buffer mode of an absolute move in version 3, with its direction.
#[tactic(auto, unfolding(crate::specs::Records::mode_text, crate::specs::Words::shortest, plc_types::specs::KindNames::mode_name))]
fn directed_text(mode: BufferMode) -> &'static str
    ensures { result.now ≡ records.mode_text TraceVersion.Three BlockKind.MoveAbsolute mode }
{
    match mode {
        BufferMode::Aborting => "aborting:shortest",
        BufferMode::Buffered => "buffered:shortest",
        BufferMode::BlendingLow => "blendingLow:shortest",
        BufferMode::BlendingPrevious => "blendingPrevious:shortest",
        BufferMode::BlendingNext => "blendingNext:shortest",
        BufferMode::BlendingHigh => "blendingHigh:shortest",
    }
}

/// The text of an input, or nothing where it isn't taken.
#[tactic(auto, unfolding(crate::specs::Records::taken_text))]
pub fn taken_text(taken: bool, text: &[u8]) -> &[u8]
    ensures { result.now ≡ records.taken_text taken text.now }
{
    if taken { text } else { b"" }
}

/// The text of a number that is an input, or nothing where the kind doesn't take it.
#[tactic(auto, unfolding(crate::specs::Records::taken_text))]
pub fn number_text<'a>(
    kind: BlockKind,
    input: Input,
    digits: &'a mut Buffer,
    number: i64,
) -> &'a [u8]
    ensures { result.now ≡ records.number_text kind input number }
{
    if takes(kind, input) {
        digits.format(number).as_bytes()
    } else {
        b""
    }
}
