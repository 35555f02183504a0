// What a call and a cycle look at of the axes around a group.

ghost use Rattle.std.specs.Prelude.{◌≡◌, ◌<◌, ◌≤◌, ℕ, All, length, slice_get, Some};
ghost use Rattle.group_core.specs.declared.look.GroupLook.{GroupLook};
ghost use Rattle.motion_kernel.specs.looks.GroupLooks as spec;
ghost use Rattle.motion_kernel.specs.kept.Machine.{IsSized};
ghost use Rattle.motion_kernel.specs.members.Members.{member_at};
ghost use Rattle.motion_kernel.specs.Seen.{machine_of};

use crate::layout::Layout;
use crate::parts::Parts;
use crate::telling::is_held;
use axis_core::AxisCore;
use group_core::GroupLook;
use plc_types::{AxisState, Limits};

const NO_LIMITS: Limits = Limits {
    lo: 0,
    hi: 0,
    vmax: 0,
    amax: 0,
    dmax: 0,
};

// Looks at an axis, for its place in the group.
fn look_at(axis: &AxisCore, place: usize, look: &mut GroupLook)
    requires { place < 6 }
    ensures { look.new ≡ spec.with_member place axis.now look.old }
{
    look.limits[place] = *axis.limits();
    look.setpoints[place] = axis.pair().1;
    look.states[place] = axis.state();
}

// A look without an axis.
fn look_at_none(count: u8, error: u16, stop_held: bool) -> GroupLook
    ensures { result ≡ spec.look_at_none count error stop_held }
{
    GroupLook {
        count,
        limits: [NO_LIMITS; 6],
        setpoints: [0; 6],
        states: [AxisState::Disabled; 6],
        error,
        stop_held,
    }
}

// Looks at the axes of a group, in its order.
fn look_at_all(members: &[u8], axes: &[AxisCore], look: &mut GroupLook)
    requires few { length members.now ≤ 6 }
    requires there { (place : ℕ) → place < length members.now →
        member_at members.now place < length axes.now }
    ensures { look.new ≡ spec.with_members (length members.now) axes.now members.now look.old }
{
    for (place, axis) in members.iter().enumerate() {
        look_at(&axes[*axis as usize], place, look);
    }
}

/// What a group looks at: its axes as they are, an error that it gets from them, and whether its
/// GroupStop is still called with Execute true.
pub fn group_look(layout: &Layout, group: u8, error: u16, parts: &Parts) -> GroupLook
    requires sized { IsSized layout.now (machine_of parts.now) }
    requires there { group < length layout.now.groups }
    ensures look { result ≡ spec.group_look layout.now (machine_of parts.now) group error }
    ensures few { result.count ≤ 6 }
{
    let members = layout.members_of(group);
    let hold = parts.groups[group as usize].stop_owner();
    let stop_held = is_held(parts.instances.as_slice(), hold);
    let mut look = look_at_none(members.len() as u8, error, stop_held);
    look_at_all(members, parts.axes.as_slice(), &mut look);
    look
}
