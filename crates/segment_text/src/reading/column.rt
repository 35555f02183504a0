// The values of a header's fields that no trace has.

ghost use Rattle.std.specs.Prelude.{◌≡◌, decimal};
ghost use Rattle.std.specs.Option.{option_map};
ghost use Rattle.line_text.specs.Texts.{texts};
ghost use Rattle.line_text.specs.Texts.{says};
ghost use Rattle.segment_text.specs.reading.Columns as spec;
ghost use Rattle.trace_text.specs.reading.Rules as rules;

use buffer_modes::PendingReset;
use itoa::Buffer;
use line_text::says;
use trace_columns::{unsigned_of, wide_number_of, word_of};

// Whether a field is empty.
fn is_empty(text: &[u8]) -> bool
    ensures { result ≡ rules.is_empty text.now }
{
    text.is_empty()
}

/// The number of 8 bits that a field is.
pub fn byte_of(text: &[u8]) -> Option<u8>
    ensures { result ≡ spec.byte_of text.now }
{
    let number = unsigned_of(0, 255, text)?;
    Some(number as u8)
}

/// The number of an instance, if a field is not empty.
#[tactic(auto, unfolding(crate::specs::reading::Columns::owner_of))]
pub fn owner_of(text: &[u8]) -> Option<Option<u16>>
    ensures { result ≡ spec.owner_of text.now }
{
    if is_empty(text) {
        return Some(None);
    }
    let instance = word_of(text)?;
    Some(Some(instance))
}

/// A target, if a field is not empty.
#[tactic(auto, unfolding(crate::specs::reading::Columns::target_of))]
pub fn target_of(text: &[u8]) -> Option<Option<i64>>
    ensures { result ≡ spec.target_of text.now }
{
    if is_empty(text) {
        return Some(None);
    }
    let target = wide_number_of(text)?;
    Some(Some(target))
}

// The pending reset that a field is.
#[tactic(auto, unfolding(crate::specs::reading::Columns::pending_of))]
fn pending_of(text: &[u8]) -> Option<PendingReset>
    ensures { result ≡ spec.pending_of text.now }
{
    if says(text, b"-") {
        return Some(PendingReset { owner: None });
    }
    let owner = Some(word_of(text)?);
    Some(PendingReset { owner })
}

/// A pending reset, if a field is not empty.
#[tactic(auto, unfolding(crate::specs::reading::Columns::reset_of))]
pub fn reset_of(text: &[u8]) -> Option<Option<PendingReset>>
    ensures { result ≡ spec.reset_of text.now }
{
    if is_empty(text) {
        return Some(None);
    }
    let pending = pending_of(text)?;
    Some(Some(pending))
}

// Whether a field is what is written for a number.
fn is_number(number: u64, text: &[u8]) -> bool
    ensures { result ≡ says text.now (decimal number) }
{
    let mut digits = Buffer::new();
    says(text, digits.format(number).as_bytes())
}

/// The fields after the first, where that is this number.
#[tactic(auto, unfolding(crate::specs::reading::Columns::behind_number))]
pub fn behind_number<'a, 'b>(number: usize, fields: &'a [&'b [u8]]) -> Option<&'a [&'b [u8]]>
    ensures { option_map (λ r. texts r.now) result ≡ spec.behind_number number (texts fields.now) }
{
    let [first, behind @ ..] = fields else {
        return None;
    };
    if is_number(number as u64, first) {
        Some(behind)
    } else {
        None
    }
}

/// How many of something were before.
#[tactic(auto, unfolding(trace_columns::specs::Columns::unsigned_of, trace_columns::specs::Columns::number_of))]
pub fn count_of(text: &[u8]) -> Option<u64>
    ensures { result ≡ spec.count_of text.now }
{
    let count = wide_number_of(text)?;
    if 0 <= count { Some(count as u64) } else { None }
}
