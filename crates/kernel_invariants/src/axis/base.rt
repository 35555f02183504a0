// Whether the numbers of an axis are in their ranges, and its setpoints where they may be.

ghost use Rattle.std.specs.Prelude.{◌≡◌, ◌↔◌, IsTrue, pos, ◌≤ℤ◌};
ghost use Rattle.axis_core.specs.AxisKept.{IsBased, IsPlaced, IsSet};
ghost use Rattle.axis_core.specs.Ranges.{IsBetween};
ghost use Rattle.plc_types.specs.Counts.{HasCounts, IsCount, count_of};
ghost use Rattle.plc_types.specs.Limits.{AreLimits};

use crate::counts::{has_count, has_counts};
use crate::limits::{are_limits, is_between, is_kept};
use axis_core::Axis;
use motion_numbers::{MOST_INCREMENT, MOST_PLACE};

// The greatest size of a setpoint, of which `axis_core` says what it is.
const MOST_SETPOINT: u64 = 5_000_000_000_000_000_000;

// Whether the greatest place is one that an axis may have.
fn ends_at_a_place(axis: &Axis) -> bool
    ensures { IsTrue result ↔ (axis.now.limits.hi ≤ℤ pos MOST_PLACE) }
{
    axis.limits.hi <= MOST_PLACE as i64
}

// Whether the increment is in its range.
fn has_increment(axis: &Axis) -> bool
    ensures { IsTrue result ↔ IsBetween (pos 1) axis.now.inc (pos MOST_INCREMENT) }
{
    is_between(1, axis.inc, MOST_INCREMENT as i64)
}

// Whether the places within the limits have counts.
fn places_have_counts(axis: &Axis) -> bool
    requires { pos 1 ≤ℤ axis.now.inc }
    ensures { IsTrue result ↔ HasCounts axis.now.limits axis.now.offset axis.now.inc }
{
    has_counts(&axis.limits, axis.offset as i128, axis.inc)
}

// Whether the setpoint has a count.
fn setpoint_has_count(axis: &Axis) -> bool
    requires { pos 1 ≤ℤ axis.now.inc }
    ensures { IsTrue result ↔
        IsCount (count_of axis.now.setpoint axis.now.offset axis.now.inc) }
{
    has_count(axis.setpoint, axis.offset, axis.inc)
}

// Whether an axis that is not driven stands where its drive may.
fn is_placed(axis: &Axis) -> bool
    ensures { IsTrue result ↔ IsPlaced axis.now.previous axis.now.setpoint }
{
    axis.previous == axis.setpoint && axis.setpoint.unsigned_abs() <= MOST_SETPOINT
}

// Whether the setpoints can be stopped within the limits, or are the drive's place where the axis
// is not driven.
fn is_set(axis: &Axis) -> bool
    requires { AreLimits axis.now.limits }
    ensures { IsTrue result ↔
        IsSet axis.now.driven axis.now.limits axis.now.previous axis.now.setpoint }
{
    if axis.driven {
        is_kept(&axis.limits, axis.previous, axis.setpoint)
    } else {
        is_placed(axis)
    }
}

// Whether the limits and the increment are in their ranges.
fn is_sized(axis: &Axis) -> bool
    ensures { IsTrue result ↔ (AreLimits axis.now.limits
        × (axis.now.limits.hi ≤ℤ pos MOST_PLACE)
        × IsBetween (pos 1) axis.now.inc (pos MOST_INCREMENT)) }
{
    are_limits(&axis.limits) && ends_at_a_place(axis) && has_increment(axis)
}

// Whether the numbers are in their ranges, the places have counts, and the setpoints are where they
// may be.
pub fn is_based(axis: &Axis) -> bool
    ensures { IsTrue result ↔ IsBased axis.now.limits axis.now.inc axis.now.offset
        axis.now.previous axis.now.setpoint axis.now.driven }
{
    is_sized(axis) && places_have_counts(axis) && setpoint_has_count(axis) && is_set(axis)
}
