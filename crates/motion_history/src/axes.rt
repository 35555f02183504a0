// When an axis may be one of a configuration.

ghost use Rattle.std.specs.Prelude.{◌≡◌, pos, IsTrue};
ghost use Rattle.motion_history.specs.Items.{setup_of};
ghost use Rattle.motion_history.specs.Faults as faults;
ghost use Rattle.motion_history.specs.Ranges as ranges;

use crate::config::Items;
use crate::fault::ConfigFault;
use crate::names::name_fault;
use crate::sizes::MOST_AXES;
use motion_numbers::{MOST_INCREMENT, MOST_PLACE, MOST_STEP};
use plc_types::Limits;

/// Why an axis is refused.
#[tactic(auto, unfolding(crate::specs::Faults::axis_fault))]
pub fn axis_fault(
    items: &Items,
    name: &[u8],
    limits: &Limits,
    inc: i64,
    start: i64,
) -> Option<ConfigFault>
    ensures { result ≡ faults.axis_fault (setup_of items.now) name.now limits.now inc start }
{
    if let Some(fault) = name_fault(items, name) {
        return Some(fault);
    }
    if !is_axis_range(limits, inc, start) {
        Some(ConfigFault::OutOfRange)
    } else if items.axes.len() >= MOST_AXES {
        Some(ConfigFault::TooMany)
    } else {
        None
    }
}

// Whether an axis may have these limits, this increment and this start.
#[tactic(auto, unfolding(crate::specs::Ranges::is_axis_range))]
fn is_axis_range(limits: &Limits, inc: i64, start: i64) -> bool
    ensures { result ≡ ranges.is_axis_range limits.now inc start }
{
    are_places(limits)
        && are_speeds(limits)
        && is_between(1, inc, MOST_INCREMENT as i64)
        && has_counts(limits, inc)
        && is_start(limits, inc, start)
}

// Whether z lies between two numbers, both included.
fn is_between(low: i64, z: i64, high: i64) -> bool
    ensures { result ≡ ranges.is_between low z high }
{
    low <= z && z <= high
}

// Whether the least and the greatest place of an axis are in range.
fn are_places(limits: &Limits) -> bool
    ensures { result ≡ ranges.are_places limits.now }
{
    -(MOST_PLACE as i64) <= limits.lo && limits.lo < limits.hi && limits.hi <= MOST_PLACE as i64
}

// Whether the greatest steps of an axis and of their changes are in range.
fn are_speeds(limits: &Limits) -> bool
    ensures { result ≡ ranges.are_speeds limits.now }
{
    is_between(1, limits.vmax, MOST_STEP as i64)
        && is_between(2, limits.amax, MOST_STEP as i64)
        && is_between(limits.amax, limits.dmax, MOST_STEP as i64)
}

// Whether the places of an axis have target counts of 32 bits.
fn has_counts(limits: &Limits, inc: i64) -> bool
    requires { IsTrue (ranges.is_between (pos 1) inc (pos MOST_INCREMENT)) }
    ensures { result ≡ ranges.has_counts limits.now inc }
{
    i64::from(i32::MIN) <= limits.lo.div_euclid(inc)
        && limits.hi.div_euclid(inc) <= i64::from(i32::MAX)
}

// Whether the start is a multiple of the increment within the limits.
fn is_start(limits: &Limits, inc: i64, start: i64) -> bool
    requires { IsTrue (ranges.is_between (pos 1) inc (pos MOST_INCREMENT)) }
    ensures { result ≡ ranges.is_start limits.now inc start }
{
    is_between(limits.lo, start, limits.hi) && start.rem_euclid(inc).unsigned_abs() == 0
}
