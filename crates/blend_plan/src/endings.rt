// Laws of blends cycle by cycle: each is the contract of a function that does nothing.
ghost use Rattle.std.specs.Prelude.{◌≡◌, ◌⊎◌, ◌+◌, ◌-◌, ◌/◌, ◌≤◌, ◌↔◌, true, false, ℤ, pos, neg_ℤ, ◌+ℤ◌, ◌-ℤ◌, ◌<ℤ◌, ◌≤ℤ◌, unsigned_abs};
ghost use Rattle.plc_types.specs.declared.limits.Limits.{Limits};
ghost use Rattle.plc_types.specs.Limits.{AreLimits};
ghost use Rattle.kin_core.specs.Admissible.{IsKept};
ghost use Rattle.command_pool.specs.declared.rates.Rates.{Rates};
ghost use Rattle.command_pool.specs.Rates.{AreRates};
ghost use Rattle.kin_core.specs.Toward.{IsTowards};
ghost use Rattle.blend_plan.specs.Blends.{LieAhead, BlendApplies};
ghost use Rattle.blend_plan.specs.BlendStep.{Crosses};
ghost use Rattle.blend_plan.specs.BlendRun.{IsBlendWithin, HasBlend, blend_taken_of, has_crossed};
ghost use Rattle.blend_plan.specs.BlendRun.{SettlesWithin, CrossesWithin};

use kin_core::{safe_steps_lead_on, steps_fall_toward_zero};
use motion_numbers::{searches_find_the_greatest, ways_to_rest};
use ramp_root::sums_of_ramps;

/// Whether a taken step crosses, in the direction from the first target to the second.
pub fn crossings_are_told_by_test()
    ensures upward { (target1 target2 now vb step : ℤ) (second : Rates) → target1 <ℤ target2 →
        (has_crossed target1 target2 now second vb step ≡ true) ↔
        Crosses (target1 -ℤ now) (target2 -ℤ now) second vb step }
    ensures downward { (target1 target2 now vb step : ℤ) (second : Rates) → target2 ≤ℤ target1 →
        (has_crossed target1 target2 now second vb step ≡ true) ↔
        Crosses (now -ℤ target1) (now -ℤ target2) second vb (neg_ℤ step) }
{}

/// A step that crosses is at most the blend velocity, and the first target lies between the
/// setpoint and the next one, or at one of them.
pub fn crossings_have_the_target_between()
    ensures speed { (target1 target2 before now vb step : ℤ) (second : Rates) →
        BlendApplies target1 target2 before now →
        has_crossed target1 target2 now second vb step ≡ true → pos (unsigned_abs step) ≤ℤ vb }
    ensures between { (target1 target2 before now vb step : ℤ) (second : Rates) →
        BlendApplies target1 target2 before now →
        has_crossed target1 target2 now second vb step ≡ true →
        IsTowards (now +ℤ step) now target1 }
{}

/// A blend that has no step brakes, so that it has one or does not apply any more within as many
/// cycles as braking from the last step takes, and one.
pub fn blends_settle()
    ensures { (limits : Limits) (target1 target2 before now vb : ℤ) (first second : Rates) →
        AreLimits limits → AreRates first → AreRates second →
        IsBlendWithin limits target1 target2 first second vb → IsKept limits before now →
        SettlesWithin (unsigned_abs (now -ℤ before) / unsigned_abs first.d + 1)
        limits target1 target2 before now first second vb }
{
    ways_to_rest();
    searches_find_the_greatest();
    sums_of_ramps();
    steps_fall_toward_zero();
    safe_steps_lead_on();
}

/// A blend that applies has a step, or it brakes: the taken step is smaller than the last one, by
/// the first deceleration or more.
pub fn blends_without_steps_brake()
    ensures { (limits : Limits) (target1 target2 before now vb : ℤ) (first second : Rates) →
        AreLimits limits → AreRates first → AreRates second →
        IsBlendWithin limits target1 target2 first second vb → IsKept limits before now →
        BlendApplies target1 target2 before now →
        HasBlend target1 target2 before now first second vb
        ⊎ (unsigned_abs (blend_taken_of limits target1 target2 before now first second vb)
        ≤ unsigned_abs (now -ℤ before) - unsigned_abs first.d) }
{
    ways_to_rest();
    searches_find_the_greatest();
    steps_fall_toward_zero();
    safe_steps_lead_on();
}

/// A blend that has a step keeps having one until it crosses, and it crosses within as many cycles
/// as the first target is units away, and one.
pub fn blends_go_on_until_they_cross()
    ensures persists { (limits : Limits) (target1 target2 before now vb : ℤ) (first second : Rates) →
        AreLimits limits → AreRates first → AreRates second →
        IsBlendWithin limits target1 target2 first second vb → IsKept limits before now →
        HasBlend target1 target2 before now first second vb →
        has_crossed target1 target2 now second vb
        (blend_taken_of limits target1 target2 before now first second vb) ≡ false →
        HasBlend target1 target2 now
        (now +ℤ blend_taken_of limits target1 target2 before now first second vb) first second vb }
    ensures crosses { (limits : Limits) (target1 target2 before now vb : ℤ) (first second : Rates) →
        AreLimits limits → AreRates first → AreRates second →
        IsBlendWithin limits target1 target2 first second vb → IsKept limits before now →
        HasBlend target1 target2 before now first second vb →
        CrossesWithin (unsigned_abs (target1 -ℤ now) + 1)
        limits target1 target2 before now first second vb }
{
    ways_to_rest();
    searches_find_the_greatest();
    sums_of_ramps();
    steps_fall_toward_zero();
    safe_steps_lead_on();
}

/// The taken step of a blend doesn't turn back, whether the blend has a step or brakes.
pub fn blends_never_turn_back()
    ensures upward { (limits : Limits) (target1 target2 before now vb : ℤ) (first second : Rates) →
        AreLimits limits → AreRates first → AreRates second →
        IsBlendWithin limits target1 target2 first second vb → IsKept limits before now →
        LieAhead (target1 -ℤ now) (target2 -ℤ now) (now -ℤ before) →
        pos 0 ≤ℤ blend_taken_of limits target1 target2 before now first second vb }
    ensures downward { (limits : Limits) (target1 target2 before now vb : ℤ) (first second : Rates) →
        AreLimits limits → AreRates first → AreRates second →
        IsBlendWithin limits target1 target2 first second vb → IsKept limits before now →
        LieAhead (now -ℤ target1) (now -ℤ target2) (before -ℤ now) →
        blend_taken_of limits target1 target2 before now first second vb ≤ℤ pos 0 }
{
    ways_to_rest();
    searches_find_the_greatest();
    sums_of_ramps();
    steps_fall_toward_zero();
    safe_steps_lead_on();
}
