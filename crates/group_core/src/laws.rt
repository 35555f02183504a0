// Laws of a group: each is the contract of a function that does nothing.

ghost use Rattle.std.specs.Ordering.{int_eq};
ghost use Rattle.std.specs.Prelude.{◌≡◌, ◌⊎◌, ◌<◌, ℕ, ℤ, pos, Bool, true, false, Some, None, List};
ghost use Rattle.command_pool.specs.declared.wanted.Wanted.{Wanted};
ghost use Rattle.group_core.specs.Calls.{asked_in, commanded, disowned, group_without, powered_off};
ghost use Rattle.group_core.specs.Cores.{Core};
ghost use Rattle.group_core.specs.Courses.{Braked, Carried, Course, IsBraking, IsUnderWay, Leads, bound_of, course_of, is_line_done, is_slowing, slowing};
ghost use Rattle.group_core.specs.Cycles.{answered, cycled, opening, path_taken, reset_cycled, reset_where, step_of};
ghost use Rattle.group_core.specs.Fates.{command_fate, cycle_fate, is_failing, power_off_fate};
ghost use Rattle.group_core.specs.GroupKept.{AreGroupLimits, IsCoreKept, IsCount, IsLook, IsMade};
ghost use Rattle.group_core.specs.Members.{StandsOn, TakesSafely};
ghost use Rattle.group_core.specs.Refusals.{limits_in, refusal_of};
ghost use Rattle.group_core.specs.Shown.{IsErrorOrNone, IsShown};
ghost use Rattle.group_core.specs.States.{is_error_stop};
ghost use Rattle.group_core.specs.Tracks.{OnPath, braking_step_of, is_moving, line_step_of, moved_by};
ghost use Rattle.group_core.specs.declared.group.Group.{Group};
ghost use Rattle.group_core.specs.declared.look.GroupLook.{GroupLook};
ghost use Rattle.group_core.specs.declared.reason.Reason.{Reason};
ghost use Rattle.plc_types.specs.declared.limits.Limits.{Limits};
ghost use Rattle.linear_path.specs.Line.{coordinate_of};

use kin_core::{braking_steps_are_only_cut, standing_is_kept, taken_steps_keep};
use linear_path::{LinePath, steps_along_a_path_are_safe};
use plc_types::BlockKind;
use trapezoid_plan::{halts_come_to_rest_in_time, moves_arrive_in_time};

/// The invariant of a group, of its path and of the commands that wait for it holds at opening, and
/// after every call, every cycle and every GroupReset.
pub fn groups_stay_kept()
    ensures opened { (axes : ℕ) (limits : List Limits) → IsCount axes →
        AreGroupLimits axes limits → IsCoreKept limits (opening axes) }
    ensures command { (members : GroupLook) (w : Wanted) (jerk : ℤ) (c : Core) →
        IsLook c.group members → IsMade c.group.axes w →
        IsCoreKept (limits_in members) c →
        IsCoreKept (limits_in members) (commanded w jerk members c) }
    ensures power_off { (limits : List Limits) (c : Core) → IsCoreKept limits c →
        IsCoreKept limits (powered_off c) }
    ensures detach { (owner : ℕ) (limits : List Limits) (c : Core) → IsCoreKept limits c →
        IsCoreKept limits (disowned owner c) }
    ensures cycle { (members : GroupLook) (c : Core) → IsLook c.group members →
        IsCoreKept (limits_in members) c → IsCoreKept (limits_in members) (cycled members c) }
    ensures reset { (members : GroupLook) (limits : List Limits) (c : Core) →
        IsCoreKept limits c → IsCoreKept limits (reset_cycled members c) }
{
    standing_is_kept();
    taken_steps_keep();
    braking_steps_are_only_cut();
}

/// Each axis keeps its own limits along the path of its group. An axis that stands on the path can
/// be stopped, and the place that a cycle gives it is a safe step after its setpoints; where the
/// cycle ends the path, that place is its setpoint. After the cycle it stands on the path that goes
/// on, or on the next one, which begins there; in a call a path begins only where nothing moves and
/// the axes stand, and is left only where the axis rests; in a cycle without a path none begins.
pub fn members_keep_their_limits()
    ensures safe { (members : GroupLook) (c : Core) (p : OnPath) (axis : ℕ) (before now : ℤ) →
        IsLook c.group members → IsCoreKept (limits_in members) c →
        c.path ≡ Some p → axis < c.group.axes → StandsOn p axis before now →
        TakesSafely (limits_in members) axis before now (coordinate_of
        (step_of members c).places axis) }
    ensures ends { (members : GroupLook) (c : Core) (p : OnPath) (axis : ℕ) (before now : ℤ) →
        IsLook c.group members → IsCoreKept (limits_in members) c →
        c.path ≡ Some p → axis < c.group.axes → StandsOn p axis before now →
        (step_of members c).ends ≡ true →
        coordinate_of (step_of members c).places axis ≡ now }
    ensures stands { (members : GroupLook) (c : Core) (p q : OnPath) (axis : ℕ)
        (before now : ℤ) → IsLook c.group members → IsCoreKept (limits_in members) c →
        c.path ≡ Some p → axis < c.group.axes → StandsOn p axis before now →
        (cycled members c).path ≡ Some q →
        StandsOn q axis now (coordinate_of (step_of members c).places axis) }
    ensures begins { (members : GroupLook) (axis : ℕ) (w : Wanted) (jerk : ℤ) (c : Core) →
        IsLook c.group members → IsMade c.group.axes w →
        IsCoreKept (limits_in members) c → axis < c.group.axes → (q : OnPath) →
        (commanded w jerk members c).path ≡ Some q →
        (c.path ≡ Some q) ⊎ ((is_moving c.path ≡ false)
        × StandsOn q axis (coordinate_of members.setpoints axis)
        (coordinate_of members.setpoints axis)) }
    ensures leaves { (members : GroupLook) (axis : ℕ) (w : Wanted) (jerk : ℤ) (c : Core)
        (p : OnPath) (before now : ℤ) → IsLook c.group members →
        IsMade c.group.axes w → IsCoreKept (limits_in members) c → c.path ≡ Some p →
        StandsOn p axis before now →
        (commanded w jerk members c).path ≡ None → before ≡ now }
    ensures power_off { (c : Core) → (powered_off c).path ≡ c.path }
    ensures stays_off { (members : GroupLook) (c : Core) → c.path ≡ None →
        (cycled members c).path ≡ None }
{
    steps_along_a_path_are_safe::<LinePath>();
    taken_steps_keep();
}

/// While no error of a member stops the group, a line goes on by the taken move step of its path,
/// by its rates cut to those of the path, and is Done exactly where it stands at the end with step
/// 0; a GroupHalt and a GroupStop, and what brakes a path before an aborting line, brake it by
/// their Deceleration, and are Done exactly where the step is 0. In GroupErrorStop a path brakes by
/// its dmax, from the cycle of the error on. A refused command changes nothing.
pub fn paths_go_on_by_their_steps()
    ensures lines { (members : GroupLook) (c : Core) (p : OnPath) (w : Wanted) →
        IsCoreKept (limits_in members) c → c.group.active ≡ Some w →
        w.kind ≡ BlockKind.MoveLinearAbsolute → c.path ≡ Some p → is_failing members c ≡ false →
        Leads (line_step_of w.rates p.motion) (is_line_done p.motion
        (line_step_of w.rates p.motion)) p (cycle_fate members c) (path_taken members c) }
    ensures halts { (members : GroupLook) (c : Core) (p : OnPath) (w : Wanted) →
        IsCoreKept (limits_in members) c → c.group.active ≡ Some w →
        is_slowing w.kind ≡ true → c.path ≡ Some p → is_failing members c ≡ false →
        Leads (braking_step_of w.rates.d p.motion) (int_eq (braking_step_of w.rates.d p.motion)
        (pos 0)) p (cycle_fate members c) (path_taken members c) }
    ensures errors { (members : GroupLook) (c : Core) (p : OnPath) → c.path ≡ Some p →
        is_error_stop (answered members.error c).group.state ≡ true →
        path_taken members c
        ≡ Some (record p {
          motion = moved_by
              (braking_step_of p.motion.limits.dmax p.motion) p.motion;
        }) }
    ensures refused { (w : Wanted) (jerk : ℤ) (members : GroupLook) (c : Core) (r : Reason) →
        refusal_of (asked_in c w jerk members) ≡ Some r →
        commanded w jerk members c ≡ c }
{}

/// A line, a GroupHalt and a GroupStop, and what brakes a path before an aborting line, come to
/// their end in time: an active one is under way for as many cycles as its bound, and every event
/// carries it on, with fewer cycles to go, or ends it: it is Done at the end of its course,
/// replaced or faulted. In GroupErrorStop a path comes to rest in time too, by its dmax: each cycle
/// leaves it with one cycle less to go, or it is over.
pub fn courses_end_in_time()
    ensures begins { (course : Course) (limits : List Limits) (c : Core) (w : Wanted)
        (p : OnPath) → IsCoreKept limits c → c.group.active ≡ Some w →
        c.path ≡ Some p → course_of w ≡ Some course →
        IsUnderWay (bound_of course p.motion) course c }
    ensures command { (n : ℕ) (course : Course) (w : Wanted) (jerk : ℤ) (members : GroupLook)
        (c : Core) → IsLook c.group members →
        IsMade c.group.axes w → IsCoreKept (limits_in members) c → IsUnderWay n course c →
        Carried n 0 course (command_fate w jerk members c).ends
        (commanded w jerk members c).path (commanded w jerk members c) }
    ensures power_off { (n : ℕ) (course : Course) (c : Core) → IsUnderWay n course c →
        Carried n 0 course (power_off_fate c).ends (powered_off c).path (powered_off c) }
    ensures detach { (n : ℕ) (course : Course) (owner : ℕ) (c : Core) → IsUnderWay n course c →
        IsUnderWay n course (disowned owner c) }
    ensures cycle { (n : ℕ) (course : Course) (members : GroupLook) (c : Core) →
        IsCoreKept (limits_in members) c → IsUnderWay n course c →
        Carried n 1 course (cycle_fate members c).ends (path_taken members c) (cycled members c) }
    ensures reset { (n : ℕ) (course : Course) (members : GroupLook) (c : Core) →
        IsUnderWay n course c → IsUnderWay n course (reset_cycled members c) }
    ensures stopped { (limits : List Limits) (c : Core) (p : OnPath) → IsCoreKept limits c →
        is_error_stop c.group.state ≡ true → c.path ≡ Some p →
        IsBraking (bound_of (slowing p.motion.limits.dmax) p.motion) c }
    ensures braked { (n : ℕ) (members : GroupLook) (c : Core) → IsBraking n c →
        Braked n (cycled members c) }
{
    moves_arrive_in_time();
    halts_come_to_rest_in_time();
}

/// A group shows an error exactly in GroupErrorStop, and an instance holds GroupStopping only in
/// GroupStopping: so at opening, and after every call, every cycle and every GroupReset.
pub fn errors_stand_in_error_stop()
    ensures opened { (axes : ℕ) → IsShown (opening axes).group }
    ensures command { (w : Wanted) (jerk : ℤ) (members : GroupLook) (c : Core) →
        IsMade c.group.axes w →
        IsShown c.group → IsShown (commanded w jerk members c).group }
    ensures power_off { (c : Core) → IsShown c.group → IsShown (powered_off c).group }
    ensures detach { (owner : ℕ) (g : Group) → IsShown g → IsShown (group_without owner g) }
    ensures cycle { (members : GroupLook) (c : Core) → IsCoreKept (limits_in members) c →
        IsShown c.group → IsShown (cycled members c).group }
    ensures reset { (members : GroupLook) (on_path : Bool) (g : Group) → IsShown g →
        IsShown (reset_where members on_path g) }
{}

/// A group's error is 101 to 106 where the errors are that its axes bring it in cycles: so at
/// opening, and after every call, every cycle and every GroupReset.
pub fn errors_are_those_of_axes()
    ensures opened { (axes : ℕ) → IsErrorOrNone (opening axes).group.error }
    ensures command { (w : Wanted) (jerk : ℤ) (members : GroupLook) (c : Core) →
        IsErrorOrNone c.group.error → IsErrorOrNone (commanded w jerk members c).group.error }
    ensures power_off { (c : Core) → IsErrorOrNone c.group.error →
        IsErrorOrNone (powered_off c).group.error }
    ensures detach { (owner : ℕ) (g : Group) → IsErrorOrNone g.error →
        IsErrorOrNone (group_without owner g).error }
    ensures cycle { (members : GroupLook) (c : Core) → IsErrorOrNone members.error →
        IsErrorOrNone c.group.error → IsErrorOrNone (cycled members c).group.error }
    ensures reset { (members : GroupLook) (on_path : Bool) (g : Group) → IsErrorOrNone g.error →
        IsErrorOrNone (reset_where members on_path g).error }
{}
