// Laws of an axis that its group builds on: what never changes, its hold, and its path.

ghost use Rattle.std.specs.Prelude.{◌≡◌, ℕ, Bool, true, nat_eq};
ghost use Rattle.axis_core.specs.Along.{GoesAlong, HasFollowed, IsLeftAlone, KeepsDefinition};
ghost use Rattle.axis_core.specs.AxisKept.{IsCoreKept, IsLook};
ghost use Rattle.axis_core.specs.Calls.{axis_without_owner, core_after_command, core_after_power};
ghost use Rattle.axis_core.specs.Cores.{Core};
ghost use Rattle.axis_core.specs.Cycles.{core_after_cycle};
ghost use Rattle.axis_core.specs.Demands.{IsMade};
ghost use Rattle.axis_core.specs.Drives.{answer_error_of};
ghost use Rattle.axis_core.specs.Refusals.{Asked};
ghost use Rattle.axis_core.specs.blocks.Path.{axis_on_path, is_on_path};
ghost use Rattle.axis_core.specs.declared.axis.Axis.{Axis};
ghost use Rattle.axis_core.specs.declared.look.AxisLook.{AxisLook};

/// The limits of an axis and its increment never change, in no call and in no cycle.
pub fn axes_keep_their_definitions()
    ensures command { (q : Asked) (c : Core) →
        KeepsDefinition c.axis (core_after_command q c).axis }
    ensures power { (enable : Bool) (c : Core) →
        KeepsDefinition c.axis (core_after_power enable c).axis }
    ensures detach { (owner : ℕ) (a : Axis) → KeepsDefinition a (axis_without_owner owner a) }
    ensures path { (on : Bool) (a : Axis) → KeepsDefinition a (axis_on_path on a) }
    ensures cycle { (look : AxisLook) (c : Core) →
        KeepsDefinition c.axis (core_after_cycle look c).axis }
{}

/// An axis that a group holds takes no command but a Reset: its state, setpoints, active command
/// and those that wait stay as they are.
pub fn held_axes_take_no_command()
    ensures { (q : Asked) (c : Core) → IsMade q.wanted → q.held ≡ true →
        IsLeftAlone c (core_after_command q c) }
{}

/// An axis on its group's path goes to the place that this gives it in each cycle whose drive
/// answer brings no error: it follows on, or stands where the path ends, and has no command of its
/// own. It is on the path after a cycle only where it has gone so, and the path goes on.
pub fn paths_are_followed()
    ensures follows { (look : AxisLook) (c : Core) → IsCoreKept c → IsLook c.axis look →
        is_on_path c.axis ≡ true → is_on_path (core_after_cycle look c).axis ≡ true →
        HasFollowed c.axis look (core_after_cycle look c).axis }
    ensures goes_on { (look : AxisLook) (c : Core) → IsCoreKept c → IsLook c.axis look →
        is_on_path c.axis ≡ true → nat_eq (answer_error_of c.axis look.input) 0 ≡ true →
        GoesAlong c.axis look (core_after_cycle look c) }
{}
