// Whether places have counts of the drive.

ghost use Rattle.std.specs.Prelude.{◌≡◌, ◌↔◌, IsTrue, ◌≤◌, ◌^◌, ◌-◌, pos, neg_ℤ, ◌≤ℤ◌, unsigned_abs};
ghost use Rattle.plc_types.specs.Counts.{HasCounts, IsCount, count_of};

use plc_types::Limits;

// The count of a place, in whole increments from an offset.
#[tactic(auto, unfolding(plc_types::specs::Counts::count_of))]
fn count(place: i64, offset: i128, inc: i64) -> i128
    requires increment { pos 1 ≤ℤ inc }
    requires small { unsigned_abs offset ≤ 2 ^ 66 }
    ensures { result ≡ count_of place offset inc }
{
    (place as i128 - offset).div_euclid(inc as i128)
}

// Whether a place has at least the lowest count of 32 bits.
fn is_low(place: i64, offset: i128, inc: i64) -> bool
    requires increment { pos 1 ≤ℤ inc }
    requires small { unsigned_abs offset ≤ 2 ^ 66 }
    ensures { IsTrue result ↔ (neg_ℤ (pos (2 ^ 31)) ≤ℤ count_of place offset inc) }
{
    i32::MIN as i128 <= count(place, offset, inc)
}

// Whether a place has at most the highest count of 32 bits.
fn is_high(place: i64, offset: i128, inc: i64) -> bool
    requires increment { pos 1 ≤ℤ inc }
    requires small { unsigned_abs offset ≤ 2 ^ 66 }
    ensures { IsTrue result ↔ (count_of place offset inc ≤ℤ pos (2 ^ 31 - 1)) }
{
    count(place, offset, inc) <= i32::MAX as i128
}

// Whether the places within the limits have counts of 32 bits.
pub fn has_counts(limits: &Limits, offset: i128, inc: i64) -> bool
    requires increment { pos 1 ≤ℤ inc }
    requires small { unsigned_abs offset ≤ 2 ^ 66 }
    ensures { IsTrue result ↔ HasCounts limits.now offset inc }
{
    is_low(limits.lo, offset, inc) && is_high(limits.hi, offset, inc)
}

// Whether a place has a count of 32 bits.
pub fn has_count(place: i64, offset: i64, inc: i64) -> bool
    requires { pos 1 ≤ℤ inc }
    ensures { IsTrue result ↔ IsCount (count_of place offset inc) }
{
    let count = count(place, offset as i128, inc);
    i32::MIN as i128 <= count && count <= i32::MAX as i128
}
