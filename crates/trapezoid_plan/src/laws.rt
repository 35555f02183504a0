// Laws of moves and halts: each is the contract of a function that does nothing.
ghost use Rattle.std.specs.Prelude.{◌≡◌, ℕ, ◌+◌, ◌-◌, ◌/◌, ◌≤◌, ℤ, pos, ◌+ℤ◌, ◌-ℤ◌, ◌≤ℤ◌, unsigned_abs};
ghost use Rattle.plc_types.specs.declared.limits.Limits.{Limits};
ghost use Rattle.plc_types.specs.Limits.{AreLimits};
ghost use Rattle.kin_core.specs.Admissible.{IsKept, IsSafe};
ghost use Rattle.kin_core.specs.Toward.{IsTowards};
ghost use Rattle.command_pool.specs.declared.rates.Rates.{Rates};
ghost use Rattle.command_pool.specs.Rates.{AreRates};
ghost use Rattle.trapezoid_plan.specs.MoveStep.{IsMoveStep, MayFollow, HasMoveStep, move_step_of};
ghost use Rattle.trapezoid_plan.specs.MoveRun.{IsMoveWithin, HeadsFor, HeadsAway, IsDoneWithin, IsAtRestWithin, move_taken_of};
ghost use Rattle.trapezoid_plan.specs.CyclesBound.{cycles_bound_of};

use kin_core::{safe_steps_lead_on, steps_fall_toward_zero};
use motion_numbers::{MOST_WAY, searches_find_the_greatest, ways_to_rest};

/// The move step is the greatest step that may follow, or the old step slowed.
pub fn move_steps_are_greatest()
    ensures { (x v : ℤ) (rates : Rates) →
        AreRates rates → IsMoveStep x v rates (move_step_of x v rates) }
{
    ways_to_rest();
    searches_find_the_greatest();
    steps_fall_toward_zero();
}

/// Every step that may follow toward a target within the limits is safe. So where one may, the move
/// step is the taken step.
pub fn move_steps_are_safe()
    ensures upward { (limits : Limits) (rates : Rates) (target before now u : ℤ) →
        AreLimits limits → AreRates rates → IsMoveWithin limits rates target →
        IsKept limits before now → MayFollow rates (target -ℤ now) (now -ℤ before) u →
        IsSafe limits before now (now +ℤ u) }
    ensures downward { (limits : Limits) (rates : Rates) (target before now u : ℤ) →
        AreLimits limits → AreRates rates → IsMoveWithin limits rates target →
        IsKept limits before now → MayFollow rates (now -ℤ target) (before -ℤ now) u →
        IsSafe limits before now (now -ℤ u) }
    ensures safe { (limits : Limits) (rates : Rates) (target before now : ℤ) →
        AreLimits limits → AreRates rates → IsMoveWithin limits rates target →
        IsKept limits before now → HasMoveStep rates (target -ℤ now) (now -ℤ before) →
        IsSafe limits before now (now +ℤ move_step_of (target -ℤ now) (now -ℤ before) rates) }
    ensures taken { (limits : Limits) (rates : Rates) (target before now : ℤ) →
        AreLimits limits → AreRates rates → IsMoveWithin limits rates target →
        IsKept limits before now → HasMoveStep rates (target -ℤ now) (now -ℤ before) →
        move_taken_of limits rates target before now
        ≡ move_step_of (target -ℤ now) (now -ℤ before) rates }
{
    ways_to_rest();
    searches_find_the_greatest();
    safe_steps_lead_on();
}

/// A move that can slow onto its target goes toward it and not past it, and can do so again.
pub fn moves_head_for_their_targets()
    ensures toward { (limits : Limits) (rates : Rates) (target before now : ℤ) →
        AreLimits limits → AreRates rates → IsMoveWithin limits rates target →
        IsKept limits before now → HeadsFor rates target before now →
        IsTowards target now (now +ℤ move_taken_of limits rates target before now) }
    ensures heads { (limits : Limits) (rates : Rates) (target before now : ℤ) →
        AreLimits limits → AreRates rates → IsMoveWithin limits rates target →
        IsKept limits before now → HeadsFor rates target before now →
        HeadsFor rates target now (now +ℤ move_taken_of limits rates target before now) }
{
    ways_to_rest();
    searches_find_the_greatest();
    safe_steps_lead_on();
}

/// A move that heads away from its target slows by its deceleration, as far as rest, and doesn't
/// turn back before.
pub fn moves_that_head_away_brake()
    ensures slower { (limits : Limits) (rates : Rates) (target before now : ℤ) →
        AreLimits limits → AreRates rates → IsMoveWithin limits rates target →
        IsKept limits before now → HeadsAway target before now →
        unsigned_abs (move_taken_of limits rates target before now)
        ≤ unsigned_abs (now -ℤ before) - unsigned_abs rates.d }
    ensures forward { (limits : Limits) (rates : Rates) (target before now : ℤ) →
        AreLimits limits → AreRates rates → IsMoveWithin limits rates target →
        IsKept limits before now → HeadsAway target before now →
        before ≤ℤ now → pos 0 ≤ℤ move_taken_of limits rates target before now }
    ensures backward { (limits : Limits) (rates : Rates) (target before now : ℤ) →
        AreLimits limits → AreRates rates → IsMoveWithin limits rates target →
        IsKept limits before now → HeadsAway target before now →
        now ≤ℤ before → move_taken_of limits rates target before now ≤ℤ pos 0 }
{
    safe_steps_lead_on();
}

/// From every kept pair a move to a target within the limits, by rates within them, stands at the
/// target with step 0 within its cycles bound.
pub fn moves_arrive_in_time()
    ensures { (limits : Limits) (rates : Rates) (target before now : ℤ) →
        AreLimits limits → (limits.hi -ℤ limits.lo) ≤ℤ pos MOST_WAY →
        AreRates rates → IsMoveWithin limits rates target → IsKept limits before now →
        IsDoneWithin (cycles_bound_of (target -ℤ now) (now -ℤ before) rates)
        limits rates target before now }
{
    ways_to_rest();
    searches_find_the_greatest();
    steps_fall_toward_zero();
    safe_steps_lead_on();
}

/// A move whose way is no longer and whose step is no faster has no greater bound of cycles.
pub fn cycles_bounds_grow()
    ensures { (x y v w : ℤ) (rates : Rates) → AreRates rates →
        unsigned_abs x ≤ unsigned_abs y → unsigned_abs v ≤ unsigned_abs w →
        cycles_bound_of x v rates ≤ cycles_bound_of y w rates }
{
    ways_to_rest();
}

/// From every kept pair a halt by a deceleration within the limits has step 0 within the cycles
/// that the deceleration takes, and one.
pub fn halts_come_to_rest_in_time()
    ensures { (limits : Limits) (d before now : ℤ) →
        AreLimits limits → pos 1 ≤ℤ d → d ≤ℤ limits.dmax → IsKept limits before now →
        IsAtRestWithin (unsigned_abs (now -ℤ before) / unsigned_abs d + 1) limits d before now }
{
    safe_steps_lead_on();
}
