// The steps of an axis, and which of them its commands may want.

ghost use Rattle.command_pool.specs.declared.ending.Finish.TheVariants as ending;
ghost use Rattle.std.specs.Prelude.{◌≡◌, ◌≤◌, ◌*◌, ◌+ℤ◌, ◌-ℤ◌, unsigned_abs, IfOk, if◌then◌else◌, Some, None, is_some, ◌&&◌};
ghost use Rattle.std.specs.Option.{option_copied};
ghost use Rattle.command_pool.specs.Rates.{AreRates};
ghost use Rattle.axis_core.specs.Kept.{IsMoving, IsNear};
ghost use Rattle.axis_core.specs.Steps as spec;
ghost use Rattle.axis_core.specs.Steps.{wish_within_limits, old_step_of, step_for_wish, taken_step_in};
ghost use Rattle.motion_numbers.specs.Ranges.{IsPlace, IsStep, IsWay};
ghost use Rattle.trapezoid_plan.specs.MoveRun.{IsMoveWithin};

use crate::axis::Axis;
use command_pool::{Finish, Wanted};
use kin_core::nearest_safe;
use motion_numbers::MOST_WAY;
use trapezoid_plan::{move_step, move_steps_are_safe, plan_move};

/// SoftLimit: a step is not safe and brakes not.
const SOFT_LIMIT: u16 = 103;

/// The step of the last cycle.
pub fn old_step(axis: &Axis) -> i64
    requires { IsStep (old_step_of axis.now) }
    ensures value { result ≡ axis.now.setpoint -ℤ axis.now.previous }
    ensures small { IsStep result }
{
    axis.setpoint - axis.previous
}

/// The step that is taken where this one is wanted.
pub fn taken(axis: &Axis, step: i64) -> i64
    requires moving { IsMoving axis.now }
    requires step { unsigned_abs step ≤ 2 * MOST_WAY }
    ensures value { result ≡ taken_step_in axis.now step }
    ensures small { IsStep result }
{
    nearest_safe(&axis.limits, axis.previous, axis.setpoint, step)
}

// Whether a wanted step brakes.
fn is_braking(old: i64, step: i64) -> bool
    requires old { unsigned_abs old ≤ 2 * MOST_WAY }
    requires step { unsigned_abs step ≤ 2 * MOST_WAY }
    ensures { result ≡ spec.is_braking old step }
{
    step.unsigned_abs() < old.unsigned_abs()
        && (step == 0 || (0 < step && 0 < old) || (step < 0 && old < 0))
}

/// The step that is taken where a command without a target wants this one, or its error.
#[tactic(auto, using(crate::proofs::Moving::small_of))]
pub fn take_guarded(axis: &Axis, step: i64) -> Result<i64, u16>
    requires moving { IsMoving axis.now }
    requires step { unsigned_abs step ≤ 2 * MOST_WAY }
    ensures value { result ≡ step_for_wish axis.now (wish_within_limits axis.now step) }
    ensures small { IfOk result IsStep }
{
    let safe = taken(axis, step);
    if is_braking(old_step(axis), step) || safe == step {
        Ok(safe)
    } else {
        Err(SOFT_LIMIT)
    }
}

/// The way from one place to another.
pub fn way(from: i64, to: i64) -> i64
    requires from { IsPlace from }
    requires to { IsPlace to }
    ensures value { result ≡ to -ℤ from }
    ensures small { IsWay result }
{
    to - from
}

/// The move step toward a place.
#[tactic(auto, using(crate::proofs::Moving::small_of))]
pub fn step_toward(axis: &Axis, place: i64, wanted: &Wanted) -> i64
    requires moving { IsMoving axis.now }
    requires place { IsNear place }
    requires rates { AreRates wanted.now.rates }
    ensures value { result ≡ spec.step_toward axis.now place wanted.now }
    ensures small { IsStep result }
{
    move_step(way(axis.setpoint, place), old_step(axis), &wanted.rates)
}

/// The taken step of a move toward a place within the limits, by rates within them: one that may
/// follow is safe, so that it is taken as it is.
pub fn taken_toward(axis: &Axis, place: i64, wanted: &Wanted) -> i64
    requires moving { IsMoving axis.now }
    requires place { IsNear place }
    requires rates { AreRates wanted.now.rates }
    requires within { IsMoveWithin axis.now.limits wanted.now.rates place }
    ensures value { result ≡ taken_step_in axis.now (spec.step_toward axis.now place wanted.now) }
    ensures small { IsStep result }
{
    // laws
    move_steps_are_safe();
    let planned = plan_move(way(axis.setpoint, place), old_step(axis), &wanted.rates);
    if planned.follows {
        planned.step
    } else {
        taken(axis, planned.step)
    }
}

/// Where a step leads.
pub fn place_after(axis: &Axis, step: i64) -> i64
    requires setpoint { IsNear axis.now.setpoint }
    requires step { IsStep step }
    ensures value { result ≡ axis.now.setpoint +ℤ step }
    ensures small { IsWay result }
{
    axis.setpoint + step
}

/// The axis at its next setpoint.
pub fn move_to(next: i64, axis: &mut Axis)
    ensures { axis.new ≡ spec.axis_after_step next axis.old }
{
    axis.previous = axis.setpoint;
    axis.setpoint = next;
}

/// How a command ends where this holds.
pub fn ends_where(holds: bool, finish: Finish) -> Option<Finish>
    ensures { result ≡ (if holds then Some finish else None) }
{
    if holds { Some(finish) } else { None }
}

/// The first command that waits takes over where the active one has reached what it goes for.
pub fn gives_way(next: Option<&Wanted>, reached: bool) -> Option<Finish>
    ensures { result ≡ (if is_some (option_copied next.entry) && reached then Some ending.Aborted
        else None) }
{
    ends_where(next.is_some() && reached, Finish::Aborted)
}
