// Rates per second as steps per cycle.
ghost use Rattle.std.specs.Prelude.{◌≡◌, ◌≤◌, ◌*◌, ◌^◌, unsigned_abs};
ghost use Rattle.fixed_units.specs.PerCycle.{signed_as, per_cycle_of, per_cycle_squared_of, per_cycle_cubed_of};

// Microseconds in a second.
const SECOND: u128 = 1_000_000;

/// The step per cycle that a value per second makes, in internal units, rounded toward zero. A
/// cycle has 100 to 100,000 microseconds.
pub fn per_cycle(value: i64, cycle_us: u32) -> i64
    requires in_range { unsigned_abs value ≤ 10 ^ 18 }
    requires shortest_cycle { 100 ≤ cycle_us }
    requires longest_cycle { cycle_us ≤ 100000 }
    ensures step { result ≡ per_cycle_of value cycle_us }
    ensures bound { unsigned_abs result ≤ 10 ^ 17 }
{
    let size = u128::from(value.unsigned_abs()) * u128::from(cycle_us) / SECOND;
    signed_as(value, size as u64)
}

/// The change of step per cycle that a value per second squared makes, in internal units, rounded
/// toward zero. A cycle has 100 to 100,000 microseconds.
pub fn per_cycle2(value: i64, cycle_us: u32) -> i64
    requires in_range { unsigned_abs value ≤ 10 ^ 18 }
    requires shortest_cycle { 100 ≤ cycle_us }
    requires longest_cycle { cycle_us ≤ 100000 }
    ensures change { result ≡ per_cycle_squared_of value cycle_us }
    ensures bound { unsigned_abs result ≤ 10 ^ 16 }
{
    let cycle_us = u128::from(cycle_us);
    let size = u128::from(value.unsigned_abs()) * (cycle_us * cycle_us) / (SECOND * SECOND);
    signed_as(value, size as u64)
}

/// The jerk per cycle that a value per second cubed makes, in internal units, rounded toward zero. A
/// cycle has 100 to 100,000 microseconds.
pub fn per_cycle3(value: i64, cycle_us: u32) -> i64
    requires in_range { unsigned_abs value ≤ 10 ^ 18 }
    requires shortest_cycle { 100 ≤ cycle_us }
    requires longest_cycle { cycle_us ≤ 100000 }
    ensures jerk { result ≡ per_cycle_cubed_of value cycle_us }
    ensures bound { unsigned_abs result ≤ 10 ^ 15 }
{
    let size = u128::from(value.unsigned_abs()) * cube_of(cycle_us) / (SECOND * SECOND * SECOND);
    signed_as(value, size as u64)
}

// The cube of a cycle's microseconds.
fn cube_of(cycle_us: u32) -> u128
    requires longest_cycle { cycle_us ≤ 100000 }
    ensures value { result ≡ cycle_us * cycle_us * cycle_us }
    ensures bound { result ≤ 10 ^ 15 }
{
    let cycle_us = u128::from(cycle_us);
    let square = cycle_us * cycle_us;
    square * cycle_us
}

// The number of this size with the sign of another.
fn signed_as(other: i64, size: u64) -> i64
    requires { size ≤ 10 ^ 18 }
    ensures value { result ≡ signed_as other size }
    ensures size { unsigned_abs result ≡ size }
{
    if other < 0 {
        -(size as i64)
    } else {
        size as i64
    }
}
