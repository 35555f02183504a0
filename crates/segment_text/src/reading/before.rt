// What was before a trace segment, read from the first line of its header.

ghost use Rattle.std.specs.Prelude.{◌≡◌};
ghost use Rattle.line_text.specs.Texts.{texts};
ghost use Rattle.segment_text.specs.reading.Befores as spec;

use crate::reading::column::count_of;
use line_text::says;
use motion_kernel::Before;

// How many segments, entries and cycles were before.
#[tactic(auto, unfolding(crate::specs::reading::Befores::counts_of))]
fn counts_of(segments: &[u8], entries: &[u8], cycles: &[u8]) -> Option<Before>
    ensures { result ≡ spec.counts_of segments.now entries.now cycles.now }
{
    Some(Before {
        segments: count_of(segments)?,
        entries: count_of(entries)?,
        cycles: count_of(cycles)?,
    })
}

/// What was before the trace segment of version 1 that fields give.
#[tactic(auto, unfolding(crate::specs::reading::Befores::before_of))]
pub fn before_of(fields: &[&[u8]]) -> Option<Before>
    ensures { result ≡ spec.before_of (texts fields.now) }
{
    let [word, version, segments, entries, cycles] = fields else {
        return None;
    };
    if says(word, b"segment") && says(version, b"1") {
        counts_of(segments, entries, cycles)
    } else {
        None
    }
}
