// The version of a bench, in its first line.

ghost use Rattle.std.specs.Prelude.{◌≡◌};
ghost use Rattle.line_text.specs.Reading.{Gives};
ghost use Rattle.line_text.specs.Texts.{texts};
ghost use Rattle.bench_text.specs.Reading as spec;

use line_text::{LineFault, broken_unless, required, says};
use machine_words::NO_VERSION;
use motion_history::TraceVersion;

/// The version that the first line gives.
#[tactic(auto, unfolding(crate::specs::Reading::version_of))]
pub fn version_of(words: &[&[u8]]) -> Result<TraceVersion, LineFault>
    ensures { Gives (λ v. v) (spec.version_of (texts words.now)) result }
{
    let [word, number] = words else {
        return Err(LineFault::Rule(NO_VERSION));
    };
    broken_unless(is_bench(word), NO_VERSION)?;
    required(version_numbered(number), NO_VERSION)
}

// Whether a bench begins with this word.
#[tactic(auto, unfolding(crate::specs::Reading::is_bench))]
fn is_bench(word: &[u8]) -> bool
    ensures { result ≡ spec.is_bench word.now }
{
    says(word, b"motion-bench")
}

// The version of this number.
fn version_numbered(number: &[u8]) -> Option<TraceVersion>
    ensures { result ≡ spec.version_numbered number.now }
{
    if says(number, b"1") {
        Some(TraceVersion::One)
    } else if says(number, b"2") {
        Some(TraceVersion::Two)
    } else if says(number, b"3") {
        Some(TraceVersion::Three)
    } else {
        None
    }
}
