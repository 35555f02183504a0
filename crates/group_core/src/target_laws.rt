// Where lines lead: the contract of a function that does nothing.

ghost use Rattle.std.specs.Prelude.{◌≡◌, ◌<◌, ◌≤◌, ℕ, ℤ, Some, List, Option, length};
ghost use Rattle.command_pool.specs.declared.ending.Finish.TheVariants as finish;
ghost use Rattle.command_pool.specs.declared.wanted.Wanted.{Wanted};
ghost use Rattle.group_core.specs.Calls.{commanded, group_without, powered_off};
ghost use Rattle.group_core.specs.Cores.{Core};
ghost use Rattle.group_core.specs.Cycles.{cycled, opening, path_taken, step_of};
ghost use Rattle.group_core.specs.Fates.{cycle_fate};
ghost use Rattle.group_core.specs.GroupKept.{IsCoreKept, IsPathOf};
ghost use Rattle.group_core.specs.Refusals.{limits_in};
ghost use Rattle.group_core.specs.Targets.{EndsAtTargets, IsDoneOn, IsSameWay, IsToward};
ghost use Rattle.group_core.specs.Tracks.{OnPath, place_on};
ghost use Rattle.group_core.specs.declared.group.Group.{Group};
ghost use Rattle.group_core.specs.declared.look.GroupLook.{GroupLook};
ghost use Rattle.plc_types.specs.declared.limits.Limits.{Limits};
ghost use Rattle.linear_path.specs.Line.{coordinate_of};

/// The path of an active line leads to its targets: so at opening, and after every call and every
/// cycle. The path on which the axes take their places in a cycle is the one before it, a step
/// further, and there is where they take them. A command is Done with its path at rest, a line at
/// its end; and at the end of a path each axis stands at its target.
pub fn lines_lead_to_their_targets()
    ensures opened { (axes : ℕ) → IsToward (opening axes).group.active (opening axes).path }
    ensures command { (w : Wanted) (jerk : ℤ) (members : GroupLook) (c : Core) →
        IsToward c.group.active c.path →
        IsToward (commanded w jerk members c).group.active (commanded w jerk members c).path }
    ensures power_off { (c : Core) → IsToward c.group.active c.path →
        IsToward (powered_off c).group.active (powered_off c).path }
    ensures detach { (owner : ℕ) (g : Group) (p : Option OnPath) → IsToward g.active p →
        IsToward (group_without owner g).active p }
    ensures cycle { (members : GroupLook) (c : Core) → IsToward c.group.active c.path →
        IsToward (cycled members c).group.active (cycled members c).path }
    ensures takes { (members : GroupLook) (c : Core) (p q : OnPath) → c.path ≡ Some p →
        path_taken members c ≡ Some q → IsSameWay p q }
    ensures places { (members : GroupLook) (c : Core) (q : OnPath) (axis : ℕ) →
        path_taken members c ≡ Some q → axis < q.way.count → q.way.count ≤ 6 →
        length members.setpoints ≡ 6 →
        coordinate_of (step_of members c).places axis ≡ place_on q.way axis q.motion.place }
    ensures done { (members : GroupLook) (c : Core) (w : Wanted) →
        IsCoreKept (limits_in members) c → c.group.active ≡ Some w →
        (cycle_fate members c).ends ≡ Some finish.Done → IsDoneOn members c w }
    ensures ends { (limits : List Limits) (axes : ℕ) (p : OnPath) → IsPathOf axes limits p →
        EndsAtTargets axes p }
{}
