// Going over parts.

ghost use Rattle.std.specs.Prelude.{◌≡◌, ◌≤◌, ◌+◌, ◌++◌, ◌∷◌, [], OnOk, drop, length};
ghost use Rattle.st_tree.specs.Places as spec;

use motion_numbers::OutOfMemory;
use st_tree::Part;

/// The part at this place, which is gone over.
pub fn next(parts: &[Part], at: &mut usize) -> Part
    requires { 1 ≤ length (drop at.old parts.now) }
    ensures next { drop at.old parts.now ≡ result ∷ drop at.new parts.now }
    ensures onward { at.new ≡ at.old + 1 }
{
    let found = parts[*at];
    *at += 1;
    found
}

/// Goes over a part.
pub fn go_over(parts: &[Part], at: &mut usize)
    requires { 1 ≤ length (drop at.old parts.now) }
    ensures rest { drop at.new parts.now ≡ drop 1 (drop at.old parts.now) }
    ensures onward { at.new ≡ at.old + 1 }
{
    *at += 1;
}

// Whether a part is one of an expression.
fn is_of_expression(part: Part) -> bool
    ensures { result ≡ spec.is_of_expression part }
{
    matches!(
        part,
        Part::Number(_)
            | Part::Truth(_)
            | Part::Variable(_)
            | Part::Flag { .. }
            | Part::Negative
            | Part::Not
            | Part::Join(_)
    )
}

/// Whether an expression stands at this place.
pub fn begins(parts: &[Part], at: usize) -> bool
    ensures { result ≡ spec.begins (drop at parts.now) }
{
    match parts.get(at) {
        Some(part) => is_of_expression(*part),
        None => false,
    }
}

/// Adds an item to a list.
pub fn push<T: Drop>(list: &mut Vec<T>, item: T) -> Result<(), OutOfMemory>
    ensures { OnOk result (list.new.items ≡ list.old.items ++ item ∷ []) }
{
    match list.push(item) {
        Ok(()) => Ok(()),
        Err(_) => Err(OutOfMemory),
    }
}
