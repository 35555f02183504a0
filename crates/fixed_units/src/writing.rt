// Writing decimal numbers.
ghost use Rattle.std.specs.Prelude.{◌≡◌, ℕ, ◌+◌, ◌^◌, ◌<◌, ◌≤◌, List, ◌++◌, length, decimal};
ghost use Rattle.fixed_units.specs.Numbers.{Spells};
ghost use Rattle.fixed_units.specs.Spelling.{last_digits, without_end_zeros, fraction_text, sign_text, units_text};

use crate::Text40;
use crate::reading::{PLACES, UNIT};

/// Writes internal units as a decimal number of user units, the shortest that reads back. The
/// number stands in place of what the text was before.
pub fn write_units(value: i64, into: &mut Text40)
    ensures text { into.new ≡ units_text value }
    ensures spells { Spells into.new value }
    ensures shortest { (text : List ℕ) → Spells text value → length into.new ≤ length text }
{
    begin_with_sign(into, value < 0);
    let size = value.unsigned_abs();
    push_whole(into, size / UNIT);
    push_fraction(into, size % UNIT);
}

// Makes the text a minus alone, or empty.
fn begin_with_sign(into: &mut Text40, is_negative: bool)
    ensures { into.new ≡ sign_text is_negative }
{
    into.clear();
    if is_negative {
        into.push(b'-');
    }
}

// Writes a whole number after the text.
fn push_whole(into: &mut Text40, number: u64)
    requires { length into.old + length (decimal number) ≤ 40 }
    ensures { into.new ≡ into.old ++ decimal number }
{
    if number < 10 {
        into.push(b'0' + number as u8);
        return;
    }
    push_whole(into, number / 10);
    into.push(b'0' + (number % 10) as u8);
}

// Writes the point and the places of a fraction after the text, or nothing where it is zero.
fn push_fraction(into: &mut Text40, billionths: u64)
    requires room { length into.old ≤ 30 }
    requires below_one { billionths < 10 ^ 9 }
    ensures { into.new ≡ into.old ++ fraction_text billionths }
{
    if billionths == 0 {
        return;
    }
    let (number, places) = significant_places(billionths);
    into.push(b'.');
    push_last_digits(into, number, places);
}

// The nine digits of a fraction without the zeros at their end, as a number of this many places.
fn significant_places(billionths: u64) -> (u64, usize)
    requires above_zero { 0 < billionths }
    requires below_one { billionths < 10 ^ 9 }
    ensures digits { last_digits result.1 result.0 ≡ without_end_zeros (last_digits 9 billionths) }
    ensures places { result.1 ≤ 9 }
{
    let mut number = billionths;
    let mut places = PLACES;
    while number % 10 == 0 {
        number /= 10;
        places -= 1;
    }
    (number, places)
}

// Writes the last digits of a number after the text, this many of them.
fn push_last_digits(into: &mut Text40, number: u64, places: usize)
    requires { length into.old + places ≤ 40 }
    ensures { into.new ≡ into.old ++ last_digits places number }
{
    if places == 0 {
        return;
    }
    push_last_digits(into, number / 10, places - 1);
    into.push(b'0' + (number % 10) as u8);
}
