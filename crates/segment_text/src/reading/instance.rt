// Instances of blocks, read from the fields of a header's records.

ghost use Rattle.std.specs.Prelude.{◌≡◌};
ghost use Rattle.std.specs.Option.{option_map};
ghost use Rattle.line_text.specs.Texts.{texts};
ghost use Rattle.segment_text.specs.reading.Instances as spec;

use command_pool::Finish;
use fb_outputs::{Instance, Progress};
use line_text::says;
use plc_types::BlockKind;
use trace_columns::{flag_of, word_of};

// How far a command is that hasn't ended.
#[tactic(auto, unfolding(crate::specs::reading::Instances::running_of))]
fn running_of(word: &[u8]) -> Option<Progress>
    ensures { result ≡ spec.running_of word.now }
{
    if says(word, b"idle") {
        Some(Progress::Idle)
    } else if says(word, b"waiting") {
        Some(Progress::Waiting)
    } else if says(word, b"active") {
        Some(Progress::Active)
    } else {
        None
    }
}

// How a command ended without an error.
#[tactic(auto, unfolding(crate::specs::reading::Instances::finish_of))]
fn finish_of(word: &[u8]) -> Option<Finish>
    ensures { result ≡ spec.finish_of word.now }
{
    if says(word, b"done") {
        Some(Finish::Done)
    } else {
        says(word, b"aborted").then_some(Finish::Aborted)
    }
}

// The end of a command without an error, and whether that was shown.
#[tactic(auto, unfolding(crate::specs::reading::Instances::ended_of))]
fn ended_of(word: &[u8], shown: &[u8]) -> Option<Progress>
    ensures { result ≡ spec.ended_of word.now shown.now }
{
    let finish = finish_of(word)?;
    let shown = flag_of(shown)?;
    Some(Progress::Ended { finish, shown })
}

// The end of a command with an error, and whether that was shown.
#[tactic(auto, unfolding(crate::specs::reading::Instances::failed_of))]
fn failed_of(word: &[u8], number: &[u8], shown: &[u8]) -> Option<Progress>
    ensures { result ≡ spec.failed_of word.now number.now shown.now }
{
    if !says(word, b"error") {
        return None;
    }
    let finish = Finish::Error(word_of(number)?);
    let shown = flag_of(shown)?;
    Some(Progress::Ended { finish, shown })
}

// How far the command of an instance is.
#[tactic(auto, unfolding(crate::specs::reading::Instances::progress_of))]
fn progress_of(fields: &[&[u8]]) -> Option<Progress>
    ensures { result ≡ spec.progress_of (texts fields.now) }
{
    match fields {
        [word] => running_of(word),
        [word, shown] => ended_of(word, shown),
        [word, number, shown] => failed_of(word, number, shown),
        _ => None,
    }
}

/// The instance of this kind that fields are.
#[tactic(auto, unfolding(crate::specs::reading::Instances::instance_of))]
pub fn instance_of(kind: BlockKind, fields: &[&[u8]]) -> Option<Instance>
    ensures { option_map (λ i. i) result ≡ spec.instance_of kind (texts fields.now) }
{
    let [execute, reached, behind @ ..] = fields else {
        return None;
    };
    let execute = flag_of(execute)?;
    let reached = flag_of(reached)?;
    let progress = progress_of(behind)?;
    Some(Instance::resume(kind, execute, reached, progress))
}
