// What holds of all numbers that are read and written.
ghost use Rattle.std.specs.Prelude.{◌≡◌, ◌<◌, ◌≤◌, ◌↔◌, ◌^◌, ℕ, List, ℤ, unsigned_abs, Ok, Err, IsTrue, IsFalse};
ghost use Rattle.fixed_units.specs.Numbers.{Spells, is_number, places_of, reading_of, size_of, without_minus};
ghost use Rattle.fixed_units.specs.Spelling.{units_text};

use crate::UnitFault;

/// Which fault a text is read as: the first that applies.
pub fn tells_the_first_fault()
    ensures not_number { (text : List ℕ) →
        (reading_of text ≡ Err UnitFault.NotNumber) ↔ IsFalse (is_number (without_minus text)) }
    ensures too_fine { (text : List ℕ) → let number = without_minus text in
        (reading_of text ≡ Err UnitFault.TooFine) ↔
        (IsTrue (is_number number) × (9 < places_of number)) }
    ensures too_large { (text : List ℕ) → let number = without_minus text in
        (reading_of text ≡ Err UnitFault.TooLarge) ↔
        (IsTrue (is_number number) × (places_of number ≤ 9) × (10 ^ 18 < size_of number)) }
{}

/// A text is read as internal units exactly where it spells them and they are in range.
pub fn reads_what_is_spelled()
    ensures { (text : List ℕ) → (units : ℤ) →
        (reading_of text ≡ Ok units) ↔ (Spells text units × (unsigned_abs units ≤ 10 ^ 18)) }
{}

/// What is written reads back, for all internal units in range.
pub fn reads_what_is_written()
    ensures { (units : ℤ) → unsigned_abs units ≤ 10 ^ 18 →
        reading_of (units_text units) ≡ Ok units }
{}
