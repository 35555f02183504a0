// Laws of a group that the kernel builds on: its axes, when they are watched, and its path.

ghost use Rattle.std.specs.Prelude.{◌≡◌, ◌⊎◌, ℕ, ℤ, Bool, true, false, Some, None, is_some, List, Ok};
ghost use Rattle.std.specs.List.{list_any};
ghost use Rattle.command_pool.specs.declared.wanted.Wanted.{Wanted};
ghost use Rattle.group_core.specs.Calls.{answer_of, commanded, group_without, powered_off};
ghost use Rattle.group_core.specs.Cores.{Core};
ghost use Rattle.group_core.specs.Cycles.{cycled, reset_where, step_of};
ghost use Rattle.group_core.specs.GroupKept.{IsCoreKept, is_within};
ghost use Rattle.group_core.specs.Refusals.{limits_in, states_in};
ghost use Rattle.group_core.specs.States.{is_moved};
ghost use Rattle.group_core.specs.Tracks.{OnPath};
ghost use Rattle.group_core.specs.declared.group.Group.{Group};
ghost use Rattle.group_core.specs.declared.look.GroupLook.{GroupLook};
ghost use Rattle.plc_types.specs.declared.limits.Limits.{Limits};

use plc_types::BlockKind;

/// A group has as many axes after every call, every cycle and every GroupReset as before.
pub fn groups_keep_their_axes()
    ensures command { (w : Wanted) (jerk : ℤ) (members : GroupLook) (c : Core) →
        (commanded w jerk members c).group.axes ≡ c.group.axes }
    ensures power_off { (c : Core) → (powered_off c).group.axes ≡ c.group.axes }
    ensures detach { (owner : ℕ) (g : Group) → (group_without owner g).axes ≡ g.axes }
    ensures cycle { (members : GroupLook) (c : Core) →
        (cycled members c).group.axes ≡ c.group.axes }
    ensures reset { (members : GroupLook) (on_path : Bool) (g : Group) →
        (reset_where members on_path g).axes ≡ g.axes }
{}

/// A group comes to a state in which its axes stand within their limits by a GroupEnable and by a
/// GroupReset alone, with all its axes in Standstill; in a cycle it stays in one only where none of
/// them has an error, and a Power off of a member leaves it in none.
pub fn groups_come_alive_by_enable_and_reset()
    ensures command { (w : Wanted) (jerk : ℤ) (members : GroupLook) (c : Core) →
        is_within (commanded w jerk members c).group.state ≡ true →
        (is_within c.group.state ≡ true) ⊎ (list_any is_moved (states_in members) ≡ false) }
    ensures only_enable { (w : Wanted) (jerk : ℤ) (members : GroupLook) (c : Core) →
        is_within (commanded w jerk members c).group.state ≡ true →
        (is_within c.group.state ≡ true) ⊎ (w.kind ≡ BlockKind.GroupEnable) }
    ensures power_off { (limits : List Limits) (c : Core) → IsCoreKept limits c →
        is_within (powered_off c).group.state ≡ false }
    ensures cycle { (members : GroupLook) (c : Core) → IsCoreKept (limits_in members) c →
        is_within (cycled members c).group.state ≡ true →
        (is_within c.group.state ≡ true) × (members.error ≡ 0) }
    ensures reset { (members : GroupLook) (on_path : Bool) (g : Group) →
        is_within (reset_where members on_path g).state ≡ true →
        (is_within g.state ≡ true) ⊎ (list_any is_moved (states_in members) ≡ false) }
{}

/// A command that is active at once has a path, and a path begins by such a command alone; a
/// GroupDisable alone leaves the path in a call. A cycle says that it ends the path exactly where
/// there was one and is none after it.
pub fn paths_change_by_commands()
    ensures begins { (w : Wanted) (jerk : ℤ) (members : GroupLook) (c : Core) →
        answer_of w jerk members c ≡ Ok true →
        is_some (commanded w jerk members c).path ≡ true }
    ensures only_begins { (w : Wanted) (jerk : ℤ) (members : GroupLook) (c : Core)
        (q : OnPath) → (commanded w jerk members c).path ≡ Some q →
        (c.path ≡ Some q) ⊎ (answer_of w jerk members c ≡ Ok true) }
    ensures only_leaves { (w : Wanted) (jerk : ℤ) (members : GroupLook) (c : Core)
        (p : OnPath) → c.path ≡ Some p → (commanded w jerk members c).path ≡ None →
        (w.kind ≡ BlockKind.GroupDisable) × (answer_of w jerk members c ≡ Ok false) }
    ensures ends { (members : GroupLook) (c : Core) (p : OnPath) → c.path ≡ Some p →
        (cycled members c).path ≡ None → (step_of members c).ends ≡ true }
    ensures goes_on { (members : GroupLook) (c : Core) (q : OnPath) →
        (cycled members c).path ≡ Some q → (step_of members c).ends ≡ false }
{}
