// Laws of moves and blends together: each is the contract of a function that does nothing.
ghost use Rattle.std.specs.Prelude.{◌≡◌, ℕ, true, ℤ, pos, ◌-ℤ◌, ◌≤ℤ◌};
ghost use Rattle.plc_types.specs.declared.limits.Limits.{Limits};
ghost use Rattle.plc_types.specs.Limits.{AreLimits};
ghost use Rattle.kin_core.specs.Admissible.{IsKept};
ghost use Rattle.command_pool.specs.declared.rates.Rates.{Rates};
ghost use Rattle.command_pool.specs.Rates.{AreRates};
ghost use Rattle.trapezoid_plan.specs.MoveRun.{IsMoveWithin};
ghost use Rattle.blend_plan.specs.Blends.{BlendApplies};
ghost use Rattle.blend_plan.specs.BlendRun.{HasBlend, IsBlendWithin, has_crossed};
ghost use Rattle.axis_core.specs.BlendGiven.{AreBlends, AreMoves};
ghost use Rattle.axis_core.specs.FirstMove.{FirstEndsWithin, crossing_bound_of, first_bound_of};
ghost use Rattle.axis_core.specs.SecondMove.{NeverPasses};

use blend_plan::{
    blends_apply_by_test, blends_go_on_until_they_cross, blends_never_turn_back, blends_settle,
    blends_without_steps_brake, crossings_are_told_by_test,
};
use kin_core::taken_steps_keep;
use motion_numbers::{MOST_WAY, ways_to_rest};
use trapezoid_plan::{
    cycles_bounds_grow, moves_arrive_in_time, moves_head_for_their_targets,
    moves_that_head_away_brake,
};

/// No first move hangs, whether and where a blend applies: after some number of cycles its taken
/// step crosses, or it stands at its target with step 0. Where a blend has a step, that is within
/// as many cycles as its target is units away, and one; and where one applies without a step,
/// within the cycles of braking, and then those, or those of coming back from after the target.
pub fn first_moves_end()
    ensures ends { (limits : Limits) (target1 target2 before now vb : ℤ) (first second : Rates) →
        AreLimits limits → (limits.hi -ℤ limits.lo) ≤ℤ pos MOST_WAY →
        AreRates first → AreRates second →
        IsBlendWithin limits target1 target2 first second vb → IsKept limits before now →
        (n : ℕ) × FirstEndsWithin n limits target1 target2 before now first second vb }
    ensures crosses { (limits : Limits) (target1 target2 before now vb : ℤ) (first second : Rates) →
        AreLimits limits → (limits.hi -ℤ limits.lo) ≤ℤ pos MOST_WAY →
        AreRates first → AreRates second →
        IsBlendWithin limits target1 target2 first second vb → IsKept limits before now →
        HasBlend target1 target2 before now first second vb →
        FirstEndsWithin (crossing_bound_of target1 now) limits target1 target2 before now first second vb }
    ensures in_time { (limits : Limits) (target1 target2 before now vb : ℤ) (first second : Rates) →
        AreLimits limits → (limits.hi -ℤ limits.lo) ≤ℤ pos MOST_WAY →
        AreRates first → AreRates second →
        IsBlendWithin limits target1 target2 first second vb → IsKept limits before now →
        BlendApplies target1 target2 before now →
        FirstEndsWithin (first_bound_of target1 before now first)
        limits target1 target2 before now first second vb }
{
    ways_to_rest();
    moves_go_by_their_laws();
    blends_go_by_their_laws();
}

// What is known of each move by itself.
fn moves_go_by_their_laws()
    ensures { AreMoves }
{
    taken_steps_keep();
    moves_arrive_in_time();
    cycles_bounds_grow();
    moves_head_for_their_targets();
    moves_that_head_away_brake();
}

// What is known of each blend.
fn blends_go_by_their_laws()
    ensures { AreBlends }
{
    taken_steps_keep();
    blends_apply_by_test();
    blends_settle();
    blends_without_steps_brake();
    blends_go_on_until_they_cross();
    blends_never_turn_back();
}

/// After a step that crossed the second move never leads away from its target or past it.
pub fn second_targets_are_never_passed()
    ensures { (n : ℕ) (limits : Limits) (target1 target2 earlier before now vb : ℤ) (second : Rates) →
        AreLimits limits → AreRates second → IsMoveWithin limits second target2 →
        IsKept limits before now → BlendApplies target1 target2 earlier before →
        has_crossed target1 target2 before second vb (now -ℤ before) ≡ true →
        NeverPasses n limits second target2 before now }
{
    ways_to_rest();
    taken_steps_keep();
    moves_head_for_their_targets();
    crossings_are_told_by_test();
}
