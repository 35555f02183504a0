// Laws of the safe and the taken steps, for all limits and pairs: the clauses say them, and
// nothing runs.

ghost use Rattle.std.specs.Prelude.{◌≡◌, ◌↔◌, ℤ, pos, neg_ℤ, ◌+ℤ◌, ◌-ℤ◌, ◌≤ℤ◌, unsigned_abs, List};
ghost use Rattle.plc_types.specs.declared.limits.Limits.{Limits};
ghost use Rattle.plc_types.specs.Limits.{AreLimits};
ghost use Rattle.kin_core.specs.Admissible.{StepMayFollow, StepMayFollowAhead};
ghost use Rattle.kin_core.specs.Admissible.{IsSafe, IsKept, AllKept};
ghost use Rattle.kin_core.specs.Laws.{AreSafeSteps, AreStepsAhead, AreTakenSteps};
ghost use Rattle.kin_core.specs.Laws.{AreBrakingSteps, AreTowardZero};
ghost use Rattle.kin_core.specs.Taken.{least_safe_of, greatest_safe_of, setpoints_of};
ghost use Rattle.kin_core.specs.Toward.{toward_zero};

use motion_numbers::ways_to_rest;

/// Which step may follow a step, counted in the direction of the step before: it gains at most
/// amax, and loses at most dmax as far as zero and at most amax past zero. With dmax equal to
/// amax a step changes by at most amax.
pub fn steps_follow_by_direction()
    ensures forward { (limits : Limits) (old new : ℤ) → AreLimits limits → pos 0 ≤ℤ old →
        StepMayFollow limits old new ↔ StepMayFollowAhead limits old new }
    ensures backward { (limits : Limits) (old new : ℤ) → AreLimits limits → old ≤ℤ pos 0 →
        StepMayFollow limits old new ↔ StepMayFollowAhead limits (neg_ℤ old) (neg_ℤ new) }
    ensures equal_limits { (limits : Limits) (old new : ℤ) →
        AreLimits limits → limits.dmax ≡ limits.amax →
        StepMayFollow limits old new ↔ (pos (unsigned_abs (new -ℤ old)) ≤ℤ limits.amax) }
{}

/// An axis that stands anywhere within its limits can be stopped.
pub fn standing_is_kept()
    ensures kept { (limits : Limits) (place : ℤ) →
        AreLimits limits → limits.lo ≤ℤ place → place ≤ℤ limits.hi → IsKept limits place place }
{
    ways_to_rest();
}

/// The safe steps at a kept pair are the whole numbers from a least to a greatest one, and there
/// is at least one: braking by dmax.
pub fn safe_steps_are_an_interval()
    ensures not_empty { (limits : Limits) (before now : ℤ) →
        AreLimits limits → IsKept limits before now →
        least_safe_of limits before now ≤ℤ greatest_safe_of limits before now }
    ensures interval { (limits : Limits) (before now step : ℤ) →
        AreLimits limits → IsKept limits before now →
        IsSafe limits before now (now +ℤ step) ↔
        ((least_safe_of limits before now ≤ℤ step) × (step ≤ℤ greatest_safe_of limits before now)) }
    ensures braking { (limits : Limits) (before now : ℤ) →
        AreLimits limits → IsKept limits before now →
        IsSafe limits before now (now +ℤ toward_zero (now -ℤ before) limits.dmax) }
{
    ways_to_rest();
}

/// At a kept pair, whatever step is wanted, the taken step is the one safe step nearest to it,
/// and the wanted one itself where that is safe; it leaves a kept pair.
pub fn taken_steps_keep()
    ensures { AreTakenSteps }
{
    ways_to_rest();
}

/// The taken step for a braking step, by a deceleration up to dmax, is slower by at least that
/// deceleration, as far as rest, and doesn't turn back.
pub fn braking_steps_are_only_cut()
    ensures { AreBrakingSteps }
{
    ways_to_rest();
}

/// A step in either direction is safe, where what it gains and loses against the step before it is
/// within the limits, and some braking within them after it ends there.
pub fn steps_ahead_are_safe()
    ensures { AreStepsAhead }
{
    ways_to_rest();
}

/// A step moved toward zero has a size less by that, as far as zero, and keeps its direction.
pub fn steps_fall_toward_zero()
    ensures { AreTowardZero }
{}

/// What the plans of commands build on: the laws of steps ahead, taken steps and braking steps.
pub fn safe_steps_lead_on()
    ensures { AreSafeSteps }
{
    steps_ahead_are_safe();
    taken_steps_keep();
    braking_steps_are_only_cut();
}

/// For ever: from every kept pair, whatever steps are wanted one after the other, every setpoint
/// of the taken steps is admissible and every pair of neighbours can be stopped.
pub fn taken_steps_keep_for_ever()
    ensures all_kept { (limits : Limits) (before now : ℤ) (wanted : List ℤ) →
        AreLimits limits → IsKept limits before now →
        AllKept limits before now (setpoints_of limits before now wanted) }
{
    ways_to_rest();
}
