// Moves that are blended into the next one (PLCopen Motion Control Part 1, BufferMode).

ghost use Rattle.std.specs.Prelude.{◌≡◌, ◌≤ℤ◌, ◌<ℤ◌, ◌-ℤ◌, pos, IfSome, int_le, int_lt, ◌&&◌};
ghost use Rattle.std.specs.Option.{option_copied};
ghost use Rattle.blend_plan.specs.Blends as blends;
ghost use Rattle.blend_plan.specs.Blends.{BlendApplies, LieAhead, blend_applies};
ghost use Rattle.blend_plan.specs.BlendStep.{blend_step_of};
ghost use Rattle.blend_plan.specs.BlendRun.{blend_wanted_of, has_crossed};
ghost use Rattle.command_pool.specs.Rates.{AreRates};
ghost use Rattle.axis_core.specs.Kept.{IsBlend, IsBlendable, IsCarriedMove, IsMoving, IsNear};
ghost use Rattle.axis_core.specs.blocks.Moves as spec;
ghost use Rattle.motion_numbers.specs.Ranges.{IsStep};

use crate::axis::Axis;
use crate::blocks::moves::SecondMove;
use crate::blocks::targets::{move_target, target_of};
use crate::steps::{old_step, way};
use blend_plan::{Blend, blend_step, blend_velocity, blends_apply_by_test, crosses};
use command_pool::Wanted;
use plc_types::BufferMode;

/// The move into which the active one is blended in this cycle, if it is.
#[tactic(auto, unfolding(crate::specs::blocks::Moves::blended_with))]
pub fn blended_with(axis: &Axis, wanted: &Wanted, next: Option<&Wanted>) -> Option<SecondMove>
    requires moving { IsMoving axis.now }
    requires wanted { IsCarriedMove wanted.now }
    requires next { IfSome (option_copied next) IsBlendable }
    ensures value { result ≡ spec.blended_with axis.now wanted.now (option_copied next.entry) }
    ensures kept { IfSome result (IsBlend axis.now (spec.target_of wanted.now)) }
{
    // laws
    blends_apply_by_test();
    let Some(next) = next else {
        return None;
    };
    let Some(second) = second_move(wanted, next) else {
        return None;
    };
    if applies(axis, target_of(wanted), second.target) {
        Some(second)
    } else {
        None
    }
}

/// The step of a blend up to its targets.
#[tactic(auto, using(crate::proofs::Moving::small_of))]
pub fn step_up(axis: &Axis, wanted: &Wanted, second: &SecondMove) -> i64
    requires moving { IsMoving axis.now }
    requires wanted { IsCarriedMove wanted.now }
    requires second { IsBlend axis.now (spec.target_of wanted.now) second.now }
    requires up { spec.target_of wanted.now <ℤ second.now.target }
    ensures value { result ≡ blend_wanted_of (spec.target_of wanted.now) second.now.target
        axis.now.previous axis.now.setpoint wanted.now.rates second.now.rates second.now.velocity }
    ensures small { IsStep result }
{
    let (first, last) = (
        way(axis.setpoint, target_of(wanted)),
        way(axis.setpoint, second.target),
    );
    let (rates, velocity) = (&second.rates, second.velocity);
    blend_step(first, last, old_step(axis), &wanted.rates, rates, velocity).0
}

/// The step of a blend down to its targets.
#[tactic(auto, using(crate::proofs::Moving::small_of))]
pub fn step_down(axis: &Axis, wanted: &Wanted, second: &SecondMove) -> i64
    requires moving { IsMoving axis.now }
    requires wanted { IsCarriedMove wanted.now }
    requires second { IsBlend axis.now (spec.target_of wanted.now) second.now }
    requires down { second.now.target ≤ℤ spec.target_of wanted.now }
    ensures value { result ≡ blend_wanted_of (spec.target_of wanted.now) second.now.target
        axis.now.previous axis.now.setpoint wanted.now.rates second.now.rates second.now.velocity }
    ensures small { IsStep result }
{
    let (first, last) = (
        way(target_of(wanted), axis.setpoint),
        way(second.target, axis.setpoint),
    );
    let (rates, velocity) = (&second.rates, second.velocity);
    -blend_step(first, last, step_back(axis), &wanted.rates, rates, velocity).0
}

/// Whether a taken step crosses the first target of a blend up to its targets.
#[tactic(auto, using(crate::proofs::Moving::small_of))]
pub fn crosses_up(axis: &Axis, wanted: &Wanted, second: &SecondMove, step: i64) -> bool
    requires moving { IsMoving axis.now }
    requires wanted { IsCarriedMove wanted.now }
    requires second { IsBlend axis.now (spec.target_of wanted.now) second.now }
    requires up { spec.target_of wanted.now <ℤ second.now.target }
    requires step { IsStep step }
    ensures { result ≡ has_crossed (spec.target_of wanted.now) second.now.target axis.now.setpoint
        second.now.rates second.now.velocity step }
{
    let (first, last) = (
        way(axis.setpoint, target_of(wanted)),
        way(axis.setpoint, second.target),
    );
    crosses(first, last, step, &second.rates, second.velocity)
}

/// Whether a taken step crosses the first target of a blend down to its targets.
#[tactic(auto, using(crate::proofs::Moving::small_of))]
pub fn crosses_down(axis: &Axis, wanted: &Wanted, second: &SecondMove, step: i64) -> bool
    requires moving { IsMoving axis.now }
    requires wanted { IsCarriedMove wanted.now }
    requires second { IsBlend axis.now (spec.target_of wanted.now) second.now }
    requires down { second.now.target ≤ℤ spec.target_of wanted.now }
    requires step { IsStep step }
    ensures { result ≡ has_crossed (spec.target_of wanted.now) second.now.target axis.now.setpoint
        second.now.rates second.now.velocity step }
{
    let (first, last) = (
        way(target_of(wanted), axis.setpoint),
        way(second.target, axis.setpoint),
    );
    crosses(first, last, -step, &second.rates, second.velocity)
}

// The step of the last cycle, counted down.
fn step_back(axis: &Axis) -> i64
    requires { IsStep (axis.now.setpoint -ℤ axis.now.previous) }
    ensures value { result ≡ axis.now.previous -ℤ axis.now.setpoint }
    ensures small { IsStep result }
{
    axis.previous - axis.setpoint
}

// Whether a blend into a second move applies.
#[tactic(auto, unfolding(blend_plan::specs::Blends::blend_applies))]
fn applies(axis: &Axis, first: i64, second: i64) -> bool
    requires moving { IsMoving axis.now }
    requires first { IsNear first }
    requires second { IsNear second }
    ensures { result ≡ blend_applies first second axis.now.previous axis.now.setpoint }
{
    lie_above(axis, first, second) || lie_below(axis, first, second)
}

// Whether a first and a second target lie ahead upward.
#[tactic(auto, using(crate::proofs::Moving::small_of))]
fn lie_above(axis: &Axis, first: i64, second: i64) -> bool
    requires moving { IsMoving axis.now }
    requires first { IsNear first }
    requires second { IsNear second }
    ensures { result ≡ blends.lie_ahead (first -ℤ axis.now.setpoint) (second -ℤ axis.now.setpoint)
        (axis.now.setpoint -ℤ axis.now.previous) }
{
    let now = axis.setpoint;
    lie_ahead(way(now, first), way(now, second), old_step(axis))
}

// Whether they lie ahead downward.
#[tactic(auto, using(crate::proofs::Moving::small_of))]
fn lie_below(axis: &Axis, first: i64, second: i64) -> bool
    requires moving { IsMoving axis.now }
    requires first { IsNear first }
    requires second { IsNear second }
    ensures { result ≡ blends.lie_ahead (axis.now.setpoint -ℤ first) (axis.now.setpoint -ℤ second)
        (axis.now.previous -ℤ axis.now.setpoint) }
{
    let now = axis.setpoint;
    lie_ahead(way(first, now), way(second, now), step_back(axis))
}

// Whether two targets lie ahead at these distances, with the old step.
fn lie_ahead(first: i64, second: i64, old: i64) -> bool
    ensures { result ≡ (int_le (pos 0) first && int_lt first second && int_le (pos 0) old) }
{
    0 <= first && first < second && 0 <= old
}

// The move into which an active one would be blended: the command that waits first.
fn second_move(wanted: &Wanted, next: &Wanted) -> Option<SecondMove>
    requires rates { AreRates wanted.now.rates }
    requires next { IsBlendable next.now }
    ensures value { result ≡ spec.second_move_of wanted.now (Some next.now) }
    ensures near { IfSome result (λ s. IsNear s.target) }
    ensures rates { IfSome result (λ s. AreRates s.rates) }
    ensures least { IfSome result (λ s. pos 1 ≤ℤ s.velocity) }
    ensures most { IfSome result (λ s. IsStep s.velocity) }
{
    match (blend_of(next.mode), move_target(Some(next))) {
        (Some(blend), Some(target)) => Some(SecondMove {
            target,
            rates: next.rates,
            velocity: blend_velocity(blend, wanted.rates.v, next.rates.v),
        }),
        _ => None,
    }
}

// How a buffer mode blends.
fn blend_of(mode: BufferMode) -> Option<Blend>
    ensures { result ≡ spec.blend_of mode }
{
    match mode {
        BufferMode::BlendingLow => Some(Blend::Low),
        BufferMode::BlendingPrevious => Some(Blend::Previous),
        BufferMode::BlendingNext => Some(Blend::Next),
        BufferMode::BlendingHigh => Some(Blend::High),
        BufferMode::Aborting | BufferMode::Buffered => None,
    }
}
