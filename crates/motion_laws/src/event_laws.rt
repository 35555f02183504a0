// The law of states by their events: the contract of a function that does nothing.

ghost use Rattle.std.specs.Prelude.{ℕ, List, ◌∷◌, ◌++◌};
ghost use Rattle.plc_types.specs.declared.axis.AxisRow.{AxisRow};
ghost use Rattle.plc_types.specs.declared.inputs.Inputs.{Inputs};
ghost use Rattle.plc_types.specs.declared.outputs.Outputs.{Outputs};
ghost use Rattle.plc_types.specs.declared.group.GroupRow.{GroupRow};
ghost use Rattle.motion_history.specs.Calls.{IsCall};
ghost use Rattle.motion_history.specs.Entries.{Entry, call, cycle};
ghost use Rattle.motion_history.specs.Setup.{Setup, IsSetup};
ghost use Rattle.motion_laws.specs.entries.Events.{GoByEvents};
ghost use Rattle.motion_kernel.specs.Histories.{IsPast, machine_after};
ghost use Rattle.motion_kernel.specs.Machine.{Machine};
ghost use Rattle.motion_kernel.specs.kept.Machine.{AreWhole, IsMachineKept};

use axis_core::{axes_keep_their_definitions, axes_stay_kept};
use group_core::{groups_keep_their_axes, groups_stay_kept};
use motion_kernel::machines_stay_kept;
use state_events::{axes_change_by_their_events, groups_change_by_their_events};

/// The diagrams lead each axis and each group from its state before an entry to the one after it by
/// exactly the entry's events, one after another, each from a state of its row. Those of a call are
/// the one event of its block on its own axis or group, where it brings one; besides, a Power that
/// switches a member off stops its group, and a command of a group leads its axes on the path and
/// from it; on no other axis or group is any. Those of an axis in a cycle are the error that the
/// drive's answer brings, or the first row of a driven spell, or else the rest on its group's path,
/// the error or the end of its command, and what takes over; then the released stop; and last the
/// row of a Reset. Those of a group are an error of a member or the end of its command; then the
/// released stop; and last, after the cycles of its axes, the row of a GroupReset. All are given
/// by the machine before the entry and by the entry, not by the machine after it. So it is in every
/// machine that is kept, and in every entry of a past.
pub fn states_change_by_their_events()
    ensures call { (s : Setup) (m : Machine) (k : ℕ) (i : Inputs) (reply : Outputs) → AreWhole s →
        IsCall s k i → IsMachineKept s m → GoByEvents s m (call k i reply) }
    ensures cycle { (s : Setup) (m : Machine) (n : ℕ) (rows : List AxisRow)
        (grows : List GroupRow) → IsMachineKept s m → GoByEvents s m (cycle n rows grows) }
    ensures entries { (s : Setup) (made more : List Entry) (e : Entry) → IsSetup s → AreWhole s →
        IsPast s (made ++ e ∷ more) → GoByEvents s (machine_after s made) e }
{
    machines_stay_kept();
    axes_stay_kept();
    axes_keep_their_definitions();
    groups_stay_kept();
    groups_keep_their_axes();
    axes_change_by_their_events();
    groups_change_by_their_events();
}
