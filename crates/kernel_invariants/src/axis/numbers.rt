// Whether the numbers of a command are within the limits of its axis: those that its kind takes
// (PLCopen Motion Control Part 1).

ghost use Rattle.std.specs.Prelude.{◌≡◌, ◌↔◌, IsTrue, true, Some, pos, ℤ};
ghost use Rattle.axis_core.specs.AxisKept.{AreNumbers, HasGoal, IsFixedWithin};
ghost use Rattle.axis_core.specs.Kept.{IsGear, IsSmallTarget};
ghost use Rattle.axis_core.specs.Profiles.{profile_of};
ghost use Rattle.axis_core.specs.Ranges.{IsBetween};
ghost use Rattle.axis_core.specs.blocks.Velocity.{least_velocity_of};
ghost use Rattle.plc_types.specs.Inputs as inputs;
ghost use Rattle.plc_types.specs.Limits.{AreLimits};
ghost use Rattle.plc_types.specs.declared.inputs.Input.TheVariants as input;

use crate::limits::{is_between, is_within};
use axis_core::{Follow, Goal, Limits, Wanted, least_velocity, profile_for};
use motion_numbers::MOST_RATIO;
use plc_types::{Input, takes};

// The greatest size of a target that is fixed, of which `axis_core` says what it is.
const MOST_TARGET: u64 = 8_000_000_000_000_000_000;

// Whether Velocity is within the limits, if the kind takes one.
fn is_velocity_within(limits: &Limits, wanted: &Wanted) -> bool
    requires { AreLimits limits.now }
    ensures { IsTrue result ↔ (inputs.takes wanted.now.kind input.Velocity ≡ true →
        IsBetween (least_velocity_of wanted.now.kind limits.now) wanted.now.rates.v limits.now.vmax) }
{
    !takes(wanted.kind, Input::Velocity)
        || is_between(
            least_velocity(wanted.kind, limits),
            wanted.rates.v,
            limits.vmax,
        )
}

// Whether Acceleration is within the limits, if the kind takes one.
fn is_acceleration_within(limits: &Limits, wanted: &Wanted) -> bool
    ensures { IsTrue result ↔ (inputs.takes wanted.now.kind input.Acceleration ≡ true →
        IsBetween (pos 1) wanted.now.rates.a limits.now.amax) }
{
    !takes(wanted.kind, Input::Acceleration) || is_between(1, wanted.rates.a, limits.amax)
}

// Whether Deceleration is within the limits, if the kind takes one.
fn is_deceleration_within(limits: &Limits, wanted: &Wanted) -> bool
    ensures { IsTrue result ↔ (inputs.takes wanted.now.kind input.Deceleration ≡ true →
        IsBetween (pos 1) wanted.now.rates.d limits.now.dmax) }
{
    !takes(wanted.kind, Input::Deceleration) || is_between(1, wanted.rates.d, limits.dmax)
}

// Whether the ratio of a gear is in its range.
fn is_gear(follow: &Follow) -> bool
    ensures { IsTrue result ↔ IsGear follow.now }
{
    match follow {
        Follow::Gear { n, d, .. } => n.unsigned_abs() <= MOST_RATIO && 1 <= *d,
        Follow::Cam { .. } | Follow::None => true,
    }
}

// Whether the ratio is in its range, if the kind takes one.
fn is_ratio_in_range(wanted: &Wanted) -> bool
    ensures { IsTrue result ↔ (inputs.takes wanted.now.kind input.Numerator ≡ true →
        IsGear wanted.now.follow) }
{
    !takes(wanted.kind, Input::Numerator) || is_gear(&wanted.follow)
}

// Whether a target is fixed and within the limits.
pub fn is_fixed_within(limits: &Limits, wanted: &Wanted) -> bool
    ensures { IsTrue result ↔ IsFixedWithin limits.now wanted.now.target }
{
    match wanted.target {
        Some(target) => is_within(limits, target),
        None => false,
    }
}

// Whether a target is within the limits, if it is fixed.
fn is_any_within(limits: &Limits, wanted: &Wanted) -> bool
    ensures { IsTrue result ↔ ((target : ℤ) → wanted.now.target ≡ Some target →
        IsBetween limits.now.lo target limits.now.hi) }
{
    match wanted.target {
        Some(target) => is_within(limits, target),
        None => true,
    }
}

// Whether a command has the target that it goes to, by where it has it from.
fn has_goal(limits: &Limits, wanted: &Wanted) -> bool
    ensures { IsTrue result ↔ HasGoal (profile_of wanted.now.kind).goal limits.now wanted.now.target }
{
    match profile_for(wanted.kind).goal {
        Goal::Given => is_fixed_within(limits, wanted),
        Goal::FromBefore(_) => is_any_within(limits, wanted),
        Goal::NoGoal | Goal::Origin => true,
    }
}

// Whether the numbers of a command are within the limits, as its kind asks.
pub fn are_numbers(limits: &Limits, wanted: &Wanted) -> bool
    requires { AreLimits limits.now }
    ensures { IsTrue result ↔ AreNumbers wanted.now.kind limits.now wanted.now }
{
    is_velocity_within(limits, wanted)
        && is_acceleration_within(limits, wanted)
        && is_deceleration_within(limits, wanted)
        && is_ratio_in_range(wanted)
        && has_goal(limits, wanted)
}

// Whether the target of a command, if it is fixed, is small enough to be worked with.
pub fn has_small_target(wanted: &Wanted) -> bool
    ensures { IsTrue result ↔ IsSmallTarget (Some wanted.now) }
{
    match wanted.target {
        Some(target) => target.unsigned_abs() <= MOST_TARGET,
        None => true,
    }
}
