// What a call makes of a group.

ghost use Rattle.std.specs.Prelude.{◌≡◌, ◌<◌, ◌≤◌, ◌⊎◌, ◌+◌, ℕ, length, map, true, false, None, IsTrue, if◌then◌else◌, IfSome, Some, slice_get};
ghost use Rattle.group_core.specs.Calls as group_spec;
ghost use Rattle.group_core.specs.GroupKept.{IsCoreKept, IsLook, IsMade};
ghost use Rattle.group_core.specs.Refusals.{limits_in};
ghost use Rattle.motion_history.specs.declared.config.BlockDef.{BlockDef};
ghost use Rattle.motion_kernel.specs.calls.Calls as spec;
ghost use Rattle.motion_kernel.specs.looks.GroupLooks as looks;
ghost use Rattle.motion_kernel.specs.Machine.{group_at, group_core_at};
ghost use Rattle.motion_kernel.specs.Machine as machine;
ghost use Rattle.motion_kernel.specs.kept.Machine.{IsSized};
ghost use Rattle.motion_kernel.specs.kept.Ready.{MayAskGroup, group_answer, with_asked_group};
ghost use Rattle.motion_kernel.specs.Seen.{machine_of};

use crate::answering::answer;
use crate::asking::wanted_of;
use crate::group_looks::group_look;
use crate::layout::Layout;
use crate::leading::lead_members;
use crate::parts::Parts;
use crate::telling::tell;
use command_pool::{Notes, Refusal, Wanted};
use motion_history::BlockDef;
use plc_types::Inputs;

/// The list in which commands wait for a group: after those of the axes.
pub fn list_of(group: u8, parts: &Parts) -> u8
    requires { length parts.now.axes.items + group < 256 }
    ensures { result ≡ machine.list_of (machine_of parts.now) group }
{
    parts.axes.len() as u8 + group
}

/// Power is called with Enable false on an axis of the group.
pub fn power_off_group(group: u8, layout: &Layout, parts: &mut Parts)
    requires sized { IsSized layout.now (machine_of parts.old) }
    requires there { group < length layout.now.groups }
    ensures { machine_of parts.new ≡ spec.with_group_core (machine_of parts.old) group
        (group_spec.powered_off (group_core_at (machine_of parts.old) group)) }
{
    let list = list_of(group, parts);
    let mut notes = Notes::new();
    let core = &mut parts.groups[group as usize];
    core.power_off(&mut parts.pool, list, &mut notes);
    tell(&notes, parts);
}

/// Asks a command of a group.
pub fn command_group(
    wanted: &Wanted,
    jerk: i64,
    group: u8,
    layout: &Layout,
    parts: &mut Parts,
) -> Result<bool, Refusal>
    requires sized { IsSized layout.now (machine_of parts.old) }
    requires there { group < length layout.now.groups }
    requires look { IsLook (group_at (machine_of parts.old) group).group
        (looks.group_look layout.now (machine_of parts.old) group 0) }
    requires kept { IsCoreKept (limits_in (looks.group_look layout.now
        (machine_of parts.old) group 0)) (group_core_at (machine_of parts.old) group) }
    requires made { IsMade (group_at (machine_of parts.old) group).group.axes wanted.now }
    ensures answer { result ≡ group_spec.answer_of wanted.now jerk (looks.group_look layout.now
        (machine_of parts.old) group 0)
        (group_core_at (machine_of parts.old) group) }
    ensures after { machine_of parts.new ≡ spec.with_group_core (machine_of parts.old) group
        (group_spec.commanded wanted.now jerk (looks.group_look layout.now
        (machine_of parts.old) group 0) (group_core_at (machine_of parts.old) group)) }
{
    let list = list_of(group, parts);
    let look = group_look(layout, group, 0, parts);
    let mut notes = Notes::new();
    let core = &mut parts.groups[group as usize];
    let answer = core.command(&mut parts.pool, list, wanted, jerk, &look, &mut notes);
    tell(&notes, parts);
    answer
}

// A command is asked of a group.
fn ask_group(
    instance: u16,
    block: &BlockDef,
    inputs: &Inputs,
    layout: &Layout,
    parts: &mut Parts,
) -> Result<bool, Refusal>
    requires sized { IsSized layout.now (machine_of parts.old) }
    requires there { block.now.object < length layout.now.groups }
    requires may { MayAskGroup layout.now instance block.now.object block.now.kind inputs.now
        (machine_of parts.old) }
    ensures answer { result ≡ group_answer layout.now instance block.now.object block.now.kind
        inputs.now (machine_of parts.old) }
    ensures after { machine_of parts.new ≡ with_asked_group layout.now instance block.now.object
        block.now.kind inputs.now (machine_of parts.old) }
    ensures sized { IsSized layout.now (machine_of parts.new) }
{
    let wanted = wanted_of(instance, block.kind, inputs);
    command_group(&wanted, inputs.jerk, block.object, layout, parts)
}

/// A command is asked of a group, its axes are led, and its instance is answered.
#[tactic(auto, unfolding(crate::specs::calls::Calls::after_group_command))]
pub fn call_group(
    instance: u16,
    block: &BlockDef,
    inputs: &Inputs,
    layout: &Layout,
    parts: &mut Parts,
)
    requires sized { IsSized layout.now (machine_of parts.old) }
    requires there { block.now.object < length layout.now.groups }
    requires may { MayAskGroup layout.now instance block.now.object block.now.kind inputs.now
        (machine_of parts.old) }
    requires instance { instance < length layout.now.blocks }
    ensures { machine_of parts.new ≡ spec.after_group_command layout.now instance block.now.object
        block.now.kind inputs.now (machine_of parts.old) }
{
    let told = ask_group(instance, block, inputs, layout, parts);
    lead_members(block.object, block.kind, told, layout, parts);
    answer(instance, block.kind, told, parts);
}
