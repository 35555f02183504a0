// Where a number lies.

ghost use Rattle.std.specs.Prelude.{◌≡◌};
ghost use Rattle.motion_numbers.specs.Ranges as spec;

/// Whether `z` lies below `low` or above `high`.
pub fn is_outside(low: i64, z: i64, high: i64) -> bool
    ensures { result ≡ spec.is_outside low z high }
{
    z < low || high < z
}
