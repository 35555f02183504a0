// The version of a program, in its first line.

ghost use Rattle.std.specs.Prelude.{◌≡◌};
ghost use Rattle.line_text.specs.Texts.{texts};
ghost use Rattle.plc_program.specs.Reading as spec;

use line_text::says;
use motion_history::TraceVersion;

/// The version that the words give: 1, or 3 where the machine is of version 3.
#[tactic(auto, unfolding(crate::specs::Reading::version_of))]
pub fn version_of(machine: TraceVersion, words: &[&[u8]]) -> Option<TraceVersion>
    ensures { result ≡ spec.version_of machine (texts words.now) }
{
    let [word, number] = words else {
        return None;
    };
    if is_program(word) {
        version_named(machine, number)
    } else {
        None
    }
}

// Whether a program begins with this word.
#[tactic(auto, unfolding(crate::specs::Reading::is_program))]
fn is_program(word: &[u8]) -> bool
    ensures { result ≡ spec.is_program word.now }
{
    says(word, b"motion-program")
}

// The version of this number, for a machine of a version.
#[tactic(auto, unfolding(crate::specs::Reading::version_named))]
fn version_named(machine: TraceVersion, number: &[u8]) -> Option<TraceVersion>
    ensures { result ≡ spec.version_named machine number.now }
{
    if says(number, b"1") {
        Some(TraceVersion::One)
    } else if says(number, b"3") && 3 <= machine.number() {
        Some(TraceVersion::Three)
    } else {
        None
    }
}
