// The axes of a group go on its path, or leave it.

ghost use Rattle.std.specs.Prelude.{◌≡◌, ◌<◌, ◌≤◌, ◌⊎◌, ◌+◌, ℕ, length, map, true, false, None, IsTrue};
ghost use Rattle.axis_core.specs.blocks.Path as path;
ghost use Rattle.motion_kernel.specs.calls.Calls as spec;
ghost use Rattle.motion_kernel.specs.kept.Machine.{IsSized};
ghost use Rattle.motion_kernel.specs.members.Members.{member_at, members_at};
ghost use Rattle.motion_kernel.specs.kept.Ready.{RestOnPaths};
ghost use Rattle.motion_kernel.specs.Seen.{machine_of};

use crate::layout::Layout;
use crate::parts::Parts;
use axis_core::AxisCore;
use command_pool::Refusal;
use plc_types::{AxisState, BlockKind};

// An axis goes on its group's path, unless a command moves it.
fn lead_on(axis: &mut AxisCore)
    ensures { axis.new ≡ spec.axis_led true axis.old }
{
    if axis.active().is_none() {
        axis.on_path(true);
    }
}

// Whether an axis is on its group's path: it follows, and not by a command of its own.
fn is_on_path(axis: &AxisCore) -> bool
    ensures { result ≡ path.is_on_path axis.now }
{
    matches!(axis.state(), AxisState::SynchronizedMotion) && axis.active().is_none()
}

// An axis leaves the path that it is on.
fn lead_off(axis: &mut AxisCore)
    requires { path.is_on_path axis.old ≡ true → axis.old.previous ≡ axis.old.setpoint }
    ensures { axis.new ≡ spec.axis_led false axis.old }
{
    if is_on_path(axis) {
        axis.on_path(false);
    }
}

// Some axes go on their group's path, unless a command moves them.
fn lead_all_on(members: &[u8], parts: &mut Parts)
    requires { (place : ℕ) → place < length members.now →
        member_at members.now place < length parts.old.axes.items }
    ensures { machine_of parts.new ≡ spec.axes_led true members.now (machine_of parts.old) }
{
    for axis in members {
        lead_on(&mut parts.axes[*axis as usize]);
    }
}

// Some axes leave the path that they are on.
fn lead_all_off(members: &[u8], parts: &mut Parts)
    requires there { (place : ℕ) → place < length members.now →
        member_at members.now place < length parts.old.axes.items }
    requires rest { RestOnPaths (machine_of parts.old) members.now }
    ensures { machine_of parts.new ≡ spec.axes_led false members.now (machine_of parts.old) }
{
    for axis in members {
        lead_off(&mut parts.axes[*axis as usize]);
    }
}

// Whether a command became active in its call.
fn enters_path(answer: Result<bool, Refusal>) -> bool
    ensures { result ≡ spec.enters_path answer }
{
    matches!(answer, Ok(true))
}

// Whether it is a GroupDisable that was admitted.
fn leaves_path(kind: BlockKind, answer: Result<bool, Refusal>) -> bool
    ensures { result ≡ spec.leaves_path kind answer }
{
    matches!((kind, answer), (BlockKind::GroupDisable, Ok(false)))
}

/// The axes of a group go on its path where a command became active in its call, and leave it where
/// GroupDisable was admitted.
pub fn lead_members(
    group: u8,
    kind: BlockKind,
    answer: Result<bool, Refusal>,
    layout: &Layout,
    parts: &mut Parts,
)
    requires sized { IsSized layout.now (machine_of parts.old) }
    requires there { group < length layout.now.groups }
    requires rest { spec.leaves_path kind answer ≡ true →
        RestOnPaths (machine_of parts.old) (members_at layout.now group) }
    ensures after { machine_of parts.new ≡ spec.members_led layout.now group kind answer
        (machine_of parts.old) }
    ensures sized { IsSized layout.now (machine_of parts.new) }
{
    let members = layout.members_of(group);
    if enters_path(answer) {
        lead_all_on(members, parts);
    } else if leaves_path(kind, answer) {
        lead_all_off(members, parts);
    }
}
