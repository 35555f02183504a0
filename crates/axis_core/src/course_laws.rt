// Laws of moves, Halts and Stops on their courses: each is the contract of a function that does
// nothing.

ghost use Rattle.std.specs.Prelude.{◌≡◌, ℕ, Bool, Some, true, nat_eq, slice_get};
ghost use Rattle.command_pool.specs.declared.ending.Finish.TheVariants as finish;
ghost use Rattle.axis_core.specs.blocks.Moves.{is_done_by, blended_with, is_move, target_of};
ghost use Rattle.command_pool.specs.declared.wanted.Wanted.{Wanted};
ghost use Rattle.axis_core.specs.Arrivals.{Course, course_of, bound_of, turn_of, IsUnderWay, Carried, IsMoveDone};
ghost use Rattle.axis_core.specs.Blended.{BlendingCarried, HasStep, IsBlended, IsBlending, cycles_of_blend, cycles_to_cross};
ghost use Rattle.axis_core.specs.declared.blocks.moves.SecondMove.{SecondMove};
ghost use Rattle.axis_core.specs.AxisKept.{IsCoreKept};
ghost use Rattle.axis_core.specs.Calls.{core_after_command, axis_without_owner, core_after_power};
ghost use Rattle.axis_core.specs.Cores.{Core};
ghost use Rattle.axis_core.specs.Cycles.{core_after_cycle};
ghost use Rattle.axis_core.specs.Fates.{command_fate, power_fate, cycle_fate};
ghost use Rattle.axis_core.specs.Drives.{answer_error_of};
ghost use Rattle.axis_core.specs.blocks.Halts.{is_rest};
ghost use Rattle.axis_core.specs.Motions.{Leads, halt_step_taken, is_slowing, move_step_taken};
ghost use Rattle.axis_core.specs.declared.reason.Reason.{Reason};
ghost use Rattle.axis_core.specs.Owners.{core_without_owner};
ghost use Rattle.axis_core.specs.Refusals.{Asked, refusal_of};
ghost use Rattle.axis_core.specs.declared.look.AxisLook.{AxisLook};
ghost use Rattle.axis_core.specs.declared.axis.Axis.{Axis};

use crate::blend_laws::first_moves_end;
use blend_plan::{blend_velocities_are_of_the_moves, blends_apply_by_test};
use trapezoid_plan::{halts_come_to_rest_in_time, moves_arrive_in_time};

/// A move, a Halt and a Stop come to their end in time: an active one is under way for as many
/// cycles as its bound, and every event carries it on, with fewer cycles to go, or turns it: it is
/// Done at the end of its course, replaced, faulted or blended.
pub fn courses_end_in_time()
    ensures begins { (course : Course) (c : Core) (w : Wanted) → IsCoreKept c →
        c.axis.active ≡ Some w → course_of w ≡ Some course →
        IsUnderWay (bound_of course c.axis) course c.axis }
    ensures command { (n : ℕ) (course : Course) (q : Asked) (c : Core) →
        IsUnderWay n course c.axis →
        Carried n 0 course (turn_of (command_fate q c)) (core_after_command q c).axis }
    ensures power { (n : ℕ) (course : Course) (enable : Bool) (c : Core) →
        IsUnderWay n course c.axis →
        Carried n 0 course (turn_of (power_fate enable c)) (core_after_power enable c).axis }
    ensures detach { (n : ℕ) (course : Course) (owner : ℕ) (a : Axis) → IsUnderWay n course a →
        IsUnderWay n course (axis_without_owner owner a) }
    ensures cycle { (n : ℕ) (course : Course) (look : AxisLook) (c : Core) → IsCoreKept c →
        IsUnderWay n course c.axis →
        Carried n 1 course (turn_of (cycle_fate look c)) (core_after_cycle look c).axis }
{
    moves_arrive_in_time();
    halts_come_to_rest_in_time();
}

/// While the drive's answer brings no error, a move goes on by the taken step of its plan, alone or
/// in a blend, and is Done exactly where that crosses its target in a blend or stands at it with
/// step 0; a Halt and a Stop go on by theirs, and are Done exactly where it is 0. A refused command
/// changes nothing.
pub fn moves_go_on_by_their_steps()
    ensures moves { (look : AxisLook) (c : Core) (w : Wanted) → IsCoreKept c →
        c.axis.active ≡ Some w → is_move w.kind ≡ true →
        nat_eq (answer_error_of c.axis look.input) 0 ≡ true →
        Leads (move_step_taken (blended_with c.axis w (slice_get c.waiting 0)) c.axis w)
        (is_done_by (blended_with c.axis w (slice_get c.waiting 0)) c.axis w
        (move_step_taken (blended_with c.axis w (slice_get c.waiting 0)) c.axis w)) c.axis
        (cycle_fate look c) (core_after_cycle look c).axis }
    ensures halts { (look : AxisLook) (c : Core) (w : Wanted) → IsCoreKept c →
        c.axis.active ≡ Some w → is_slowing w.kind ≡ true →
        nat_eq (answer_error_of c.axis look.input) 0 ≡ true →
        Leads (halt_step_taken c.axis w) (is_rest (halt_step_taken c.axis w)) c.axis
        (cycle_fate look c) (core_after_cycle look c).axis }
    ensures refused { (q : Asked) (c : Core) (r : Reason) → refusal_of q ≡ Some r →
        core_after_command q c ≡ c }
{}

/// A move is Done at its target with step 0, or, where it is blended, by a step of at most the
/// blend velocity that crosses the target.
pub fn moves_are_done_at_their_targets()
    ensures { (look : AxisLook) (c : Core) (w : Wanted) → IsCoreKept c → c.axis.active ≡ Some w →
        is_move w.kind ≡ true → (cycle_fate look c).ends ≡ Some finish.Done →
        IsMoveDone (blended_with c.axis w (slice_get c.waiting 0)) (target_of w) c.axis.setpoint
        (core_after_cycle look c).axis }
{
    blends_apply_by_test();
}

/// No blended move hangs: it is under way for as many cycles as its bound, and every event carries
/// it on, with fewer cycles to go, or ends it, Done or aborted or by an error. A blend that has a
/// step crosses within as many cycles as its target is units away, and one; one without a step
/// brakes before, or comes back from after its target.
pub fn blended_moves_end_in_time()
    ensures crosses { (c : Core) (first : Wanted) (second : SecondMove) → IsCoreKept c →
        IsBlended first second c.axis c.waiting → HasStep first second c.axis →
        IsBlending (cycles_to_cross first c.axis) c.axis c.waiting }
    ensures ends { (c : Core) (first : Wanted) (second : SecondMove) → IsCoreKept c →
        IsBlended first second c.axis c.waiting →
        IsBlending (cycles_of_blend first c.axis) c.axis c.waiting }
    ensures command { (n : ℕ) (q : Asked) (c : Core) → IsBlending n c.axis c.waiting →
        BlendingCarried n 0 (command_fate q c).ends (core_after_command q c).axis
        (core_after_command q c).waiting }
    ensures power { (n : ℕ) (enable : Bool) (c : Core) → IsBlending n c.axis c.waiting →
        BlendingCarried n 0 (power_fate enable c).ends (core_after_power enable c).axis
        (core_after_power enable c).waiting }
    ensures detach { (n owner : ℕ) (c : Core) → IsBlending n c.axis c.waiting →
        IsBlending n (core_without_owner owner c).axis (core_without_owner owner c).waiting }
    ensures cycle { (n : ℕ) (look : AxisLook) (c : Core) → IsCoreKept c →
        IsBlending n c.axis c.waiting →
        BlendingCarried n 1 (cycle_fate look c).ends (core_after_cycle look c).axis
        (core_after_cycle look c).waiting }
{
    first_moves_end();
    blends_apply_by_test();
    blend_velocities_are_of_the_moves();
}
