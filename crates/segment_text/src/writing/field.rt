// Fields of a header, each put after a comma, and the texts of those that no trace has.

ghost use Rattle.std.specs.Prelude.{◌≡◌, ◌++◌, ◌∷◌, [], OnOk, decimal, map};
ghost use Rattle.std.specs.Fmt.{signed_decimal};
ghost use Rattle.line_text.specs.Texts.{texts};
ghost use Rattle.segment_text.specs.Fields as spec;
ghost use Rattle.segment_text.specs.Texts.{fields_text};

use buffer_modes::PendingReset;
use itoa::Buffer;
use std::alloc::AllocError;

/// Puts fields.
#[tactic(auto, unfolding(crate::specs::Texts::fields_text))]
pub fn push_fields(out: &mut Vec<u8>, fields: &[&[u8]]) -> Result<(), AllocError>
    ensures { OnOk result (out.new.items ≡ out.old.items ++ fields_text (texts fields.now)) }
{
    for field in fields {
        out.push(b',')?;
        out.extend_from_slice(field)?;
    }
    Ok(())
}

// Puts a number.
fn push_number(out: &mut Vec<u8>, number: i64) -> Result<(), AllocError>
    ensures { OnOk result (out.new.items ≡
        out.old.items ++ fields_text (signed_decimal number ∷ [])) }
{
    let mut digits = Buffer::new();
    push_fields(out, &[digits.format(number).as_bytes()])
}

/// Puts numbers, each in a field.
#[tactic(auto, unfolding(crate::specs::Texts::fields_text))]
pub fn push_numbers(out: &mut Vec<u8>, numbers: &[i64]) -> Result<(), AllocError>
    ensures { OnOk result (out.new.items ≡
        out.old.items ++ fields_text (map signed_decimal numbers.now)) }
{
    for number in numbers {
        push_number(out, *number)?;
    }
    Ok(())
}

/// The number of an instance, if there is one.
#[tactic(auto, unfolding(crate::specs::Fields::owner_text))]
pub fn owner_text(digits: &mut Buffer, owner: Option<u16>) -> &[u8]
    ensures { result.now ≡ spec.owner_text owner }
{
    match owner {
        Some(instance) => digits.format(instance).as_bytes(),
        None => b"",
    }
}

/// A target, if it is fixed.
#[tactic(auto, unfolding(crate::specs::Fields::target_text))]
pub fn target_text(digits: &mut Buffer, target: Option<i64>) -> &[u8]
    ensures { result.now ≡ spec.target_text target }
{
    match target {
        Some(target) => digits.format(target).as_bytes(),
        None => b"",
    }
}

/// A pending reset, if there is one.
#[tactic(auto, unfolding(crate::specs::Fields::reset_text))]
pub fn reset_text(digits: &mut Buffer, reset: Option<PendingReset>) -> &[u8]
    ensures { result.now ≡ spec.reset_text reset }
{
    match reset {
        Some(pending) => pending_text(digits, pending.owner),
        None => b"",
    }
}

// A pending reset by its owner.
fn pending_text(digits: &mut Buffer, owner: Option<u16>) -> &[u8]
    ensures { result.now ≡ spec.pending_text owner }
{
    match owner {
        Some(instance) => digits.format(instance).as_bytes(),
        None => b"-",
    }
}
