// Places of an axis in the increments of its drive.

ghost use Rattle.std.specs.Prelude.{◌≡◌, ◌≤◌, ◌+◌, ◌*◌, ◌^◌, ◌+ℤ◌, ◌-ℤ◌, ◌*ℤ◌, ◌≤ℤ◌, ◌&&◌, int_lt, pos, unsigned_abs};
ghost use Rattle.plc_types.specs.Counts.{count_of, place_of, IsCount};
ghost use Rattle.motion_numbers.specs.Ranges.{IsPlace};

use motion_numbers::MOST_INCREMENT;

/// The greatest size of an offset with which counts are worked out, in internal units.
pub const MOST_OFFSET: u64 = 4_000_000_000_000_000_000;

/// The greatest size of the place of a reported count, in internal units.
pub const MOST_REPORTED: u64 = 7_000_000_000_000_000_000;

/// The greatest way between a setpoint and the offset, in internal units.
pub const MOST_COUNTED: u64 = 9_000_000_000_000_000_000;

/// The count, in drive increments, of a setpoint in internal units (object 607Ah): that from the
/// offset, rounded down. `inc` is at least 1. The count has 32 bits: within the limits by the rule
/// of `setpoints_have_counts`, and at the place of a reported count because it is that count.
pub fn target_count(setpoint: i64, offset: i64, inc: i64) -> i32
    requires increment { pos 1 ≤ℤ inc }
    requires distance { unsigned_abs (setpoint -ℤ offset) ≤ MOST_COUNTED }
    requires count { IsCount (count_of setpoint offset inc) }
    ensures { result ≡ count_of setpoint offset inc }
{
    (setpoint - offset).div_euclid(inc) as i32
}

/// The place, in internal units, of a count that a drive reports (object 6064h): as many increments
/// from the offset, or `lo`, the lowest place of the axis, where that lies less than an increment
/// below it. `inc` is at most the greatest increment, `lo` a place, and the offset within
/// its own range.
pub fn place(lo: i64, count: i32, offset: i64, inc: i64) -> i64
    requires least { pos 1 ≤ℤ inc }
    requires most { inc ≤ℤ pos MOST_INCREMENT }
    requires lowest { IsPlace lo }
    requires offset { unsigned_abs offset ≤ MOST_OFFSET }
    ensures value { result ≡ place_of lo count offset inc }
    ensures small { unsigned_abs result ≤ MOST_REPORTED }
{
    let counted = counted_place(count, offset, inc);
    if is_just_below(lo, counted, inc) {
        lo
    } else {
        counted
    }
}

/// Whether a place lies less than an increment below the lowest one.
fn is_just_below(lo: i64, counted: i64, inc: i64) -> bool
    requires least { pos 1 ≤ℤ inc }
    requires most { inc ≤ℤ pos MOST_INCREMENT }
    requires lowest { IsPlace lo }
    ensures { result ≡ (int_lt (lo -ℤ inc) counted && int_lt counted lo) }
{
    lo - inc < counted && counted < lo
}

/// As many increments from the offset as a count says.
fn counted_place(count: i32, offset: i64, inc: i64) -> i64
    requires least { pos 1 ≤ℤ inc }
    requires most { inc ≤ℤ pos MOST_INCREMENT }
    requires offset { unsigned_abs offset ≤ MOST_OFFSET }
    ensures value { result ≡ (count *ℤ inc) +ℤ offset }
    ensures small { unsigned_abs result ≤ MOST_OFFSET + 2 ^ 31 * MOST_INCREMENT }
{
    i64::from(count) * inc + offset
}
