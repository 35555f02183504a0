// Laws of a blend's steps: each is the contract of a function that does nothing.
ghost use Rattle.std.specs.Prelude.{◌≡◌, ◌↔◌, true, ℤ, pos, ◌+ℤ◌, ◌-ℤ◌, ◌≤ℤ◌, unsigned_abs};
ghost use Rattle.std.specs.Int.{int_max};
ghost use Rattle.plc_types.specs.declared.limits.Limits.{Limits};
ghost use Rattle.plc_types.specs.Limits.{AreLimits};
ghost use Rattle.kin_core.specs.Admissible.{IsKept, IsSafe};
ghost use Rattle.motion_numbers.specs.Run.{run_of};
ghost use Rattle.command_pool.specs.declared.rates.Rates.{Rates};
ghost use Rattle.command_pool.specs.Rates.{AreRates};
ghost use Rattle.blend_plan.specs.declared.modes.Blend.{Blend};
ghost use Rattle.blend_plan.specs.Blends.{BlendApplies, blend_applies, blend_velocity_of};
ghost use Rattle.blend_plan.specs.BlendStep.{PassesFirst, MayBlend, IsBlendStep, blend_step_of};
ghost use Rattle.blend_plan.specs.BlendRun.{IsBlendWithin, HasBlend};
ghost use Rattle.blend_plan.specs.BlendRun.{blend_wanted_of, blend_taken_of};

use kin_core::{safe_steps_lead_on, steps_fall_toward_zero};
use motion_numbers::searches_find_the_greatest;

/// A blend applies exactly where the test of it holds.
pub fn blends_apply_by_test()
    ensures { (target1 target2 before now : ℤ) →
        (blend_applies target1 target2 before now ≡ true) ↔ BlendApplies target1 target2 before now }
{}

/// The blend velocity is the velocity of one of the moves.
pub fn blend_velocities_are_of_the_moves()
    ensures least { (mode : Blend) (first second : ℤ) → pos 1 ≤ℤ first → pos 1 ≤ℤ second →
        pos 1 ≤ℤ blend_velocity_of mode first second }
    ensures most { (mode : Blend) (first second : ℤ) →
        blend_velocity_of mode first second ≤ℤ int_max first second }
{}

/// The blend step is the greatest step that may follow, or the old step slowed.
pub fn blend_steps_are_greatest()
    ensures { (l1 l2 old vb : ℤ) (first second : Rates) → AreRates first → AreRates second →
        pos 0 ≤ℤ l1 → pos 0 ≤ℤ l2 → pos 0 ≤ℤ old → pos 0 ≤ℤ vb →
        IsBlendStep l1 l2 old first second vb (blend_step_of l1 l2 old first second vb) }
{
    searches_find_the_greatest();
    steps_fall_toward_zero();
}

/// A step that crosses passes the first target as the second alternative asks: where it is at most
/// the blend velocity and reaches the target, the other parts of the alternative hold by
/// themselves.
pub fn crossings_pass_the_first_target()
    ensures { (l1 l2 vb u : ℤ) (first second : Rates) →
        pos 0 ≤ℤ l1 → l1 ≤ℤ u → u ≤ℤ vb →
        PassesFirst l1 l2 first second vb u
        ↔ (pos (run_of (unsigned_abs u) (unsigned_abs second.d)) ≤ℤ l2) }
{}

/// Every step that may follow in a blend is safe, where the targets lie within the limits and the
/// rates and the blend velocity are at most theirs. So where a blend has a step, the wanted step is
/// the taken step.
pub fn blend_steps_are_safe()
    ensures upward { (limits : Limits) (target1 target2 before now vb u : ℤ) (first second : Rates) →
        AreLimits limits → AreRates first → AreRates second →
        IsBlendWithin limits target1 target2 first second vb → IsKept limits before now →
        MayBlend (target1 -ℤ now) (target2 -ℤ now) (now -ℤ before) first second vb u →
        IsSafe limits before now (now +ℤ u) }
    ensures downward { (limits : Limits) (target1 target2 before now vb u : ℤ) (first second : Rates) →
        AreLimits limits → AreRates first → AreRates second →
        IsBlendWithin limits target1 target2 first second vb → IsKept limits before now →
        MayBlend (now -ℤ target1) (now -ℤ target2) (before -ℤ now) first second vb u →
        IsSafe limits before now (now -ℤ u) }
    ensures safe { (limits : Limits) (target1 target2 before now vb : ℤ) (first second : Rates) →
        AreLimits limits → AreRates first → AreRates second →
        IsBlendWithin limits target1 target2 first second vb → IsKept limits before now →
        HasBlend target1 target2 before now first second vb →
        IsSafe limits before now
        (now +ℤ blend_wanted_of target1 target2 before now first second vb) }
    ensures taken { (limits : Limits) (target1 target2 before now vb : ℤ) (first second : Rates) →
        AreLimits limits → AreRates first → AreRates second →
        IsBlendWithin limits target1 target2 first second vb → IsKept limits before now →
        HasBlend target1 target2 before now first second vb →
        blend_taken_of limits target1 target2 before now first second vb
        ≡ blend_wanted_of target1 target2 before now first second vb }
{
    searches_find_the_greatest();
    steps_fall_toward_zero();
    safe_steps_lead_on();
}
