// What a call makes of an axis.

ghost use Rattle.std.specs.Prelude.{◌≡◌, ◌<◌, length, if◌then◌else◌, IfSome, Some, map, slice_get};
ghost use Rattle.axis_core.specs.AxisKept.{IsQueueKept};
ghost use Rattle.axis_core.specs.Calls as axis;
ghost use Rattle.axis_core.specs.Demands.{IsMade, asked_in};
ghost use Rattle.command_pool.specs.Waiting.{queue_of};
ghost use Rattle.motion_history.specs.declared.config.BlockDef.{BlockDef};
ghost use Rattle.motion_kernel.specs.calls.Calls as spec;
ghost use Rattle.motion_kernel.specs.Machine.{axis_at, axis_core_at};
ghost use Rattle.motion_kernel.specs.kept.Machine.{IsSized};
ghost use Rattle.motion_kernel.specs.kept.Ready.{MayAskAxis, axis_answer, with_asked_axis};
ghost use Rattle.motion_kernel.specs.Seen.{machine_of};

use crate::answering::answer;
use crate::asking::wanted_of;
use crate::group_calls::power_off_group;
use crate::layout::Layout;
use crate::memberships::Membership;
use crate::parts::Parts;
use crate::telling::tell;
use command_pool::{Notes, Refusal, Wanted};
use group_core::GroupState;
use motion_history::BlockDef;
use plc_types::Inputs;

/// Takes the Enable of a Power.
pub fn power_axis(n: u8, enable: bool, parts: &mut Parts)
    requires there { n < length parts.old.axes.items }
    requires list { n < length parts.old.pool }
    requires queue { IsQueueKept (axis_at (machine_of parts.old) n) (queue_of parts.old.pool n) }
    ensures after { machine_of parts.new ≡ spec.with_axis_core (machine_of parts.old) n
        (axis.core_after_power enable (axis_core_at (machine_of parts.old) n)) }
{
    let mut notes = Notes::new();
    let core = &mut parts.axes[n as usize];
    core.power(&mut parts.pool, n, enable, &mut notes);
    tell(&notes, parts);
}

// A Power with Enable false stops the group of its axis.
fn power_off(at: Option<Membership>, layout: &Layout, parts: &mut Parts)
    requires sized { IsSized layout.now (machine_of parts.old) }
    requires there { IfSome at (λ a. a.group < length layout.now.groups) }
    ensures { machine_of parts.new ≡ spec.group_without_power at (machine_of parts.old) }
{
    if let Some(at) = at {
        power_off_group(at.group as u8, layout, parts);
    }
}

/// A Power of an axis: its Enable is taken at every call.
#[tactic(auto, unfolding(crate::specs::calls::Calls::after_power))]
pub fn call_power(axis: u8, enable: bool, layout: &Layout, parts: &mut Parts)
    requires sized { IsSized layout.now (machine_of parts.old) }
    requires there { axis < length layout.now.axes }
    requires queue { IsQueueKept (axis_at (machine_of parts.old) axis) (queue_of
        (machine_of parts.old).queues axis) }
    ensures { machine_of parts.new ≡ spec.after_power layout.now axis enable
        (machine_of parts.old) }
{
    power_axis(axis, enable, parts);
    if !enable {
        power_off(layout.membership(axis), layout, parts);
    }
}

/// What is asked besides a command of an axis.
#[derive(Clone, Copy)]
pub struct AxisAsking {
    pub jerk: i64,
    /// Whether the axis's group is not in GroupDisabled.
    pub held: bool,
    /// How many cam tables there are.
    pub tables: u16,
}

/// Asks a command of an axis.
pub fn command_axis(
    wanted: &Wanted,
    n: u8,
    asking: &AxisAsking,
    parts: &mut Parts,
) -> Result<bool, Refusal>
    requires there { n < length parts.old.axes.items }
    requires list { n < length parts.old.pool }
    requires queue { IsQueueKept (axis_at (machine_of parts.old) n) (queue_of parts.old.pool n) }
    requires made { IsMade wanted.now }
    ensures answer { result ≡ axis.answer_of (asked_in (axis_core_at
        (machine_of parts.old) n) n wanted.now asking.now.jerk asking.now.held asking.now.tables)
        (axis_core_at (machine_of parts.old) n) }
    ensures after { machine_of parts.new ≡ spec.with_axis_core (machine_of parts.old) n
        (axis.core_after_command (asked_in (axis_core_at (machine_of parts.old) n) n wanted.now
        asking.now.jerk asking.now.held asking.now.tables)
        (axis_core_at (machine_of parts.old) n)) }
{
    let mut notes = Notes::new();
    let core = &mut parts.axes[n as usize];
    let answer = core.command(
        &mut parts.pool,
        n,
        wanted,
        asking.jerk,
        asking.held,
        asking.tables,
        &mut notes,
    );
    tell(&notes, parts);
    answer
}

// Whether a group in this state holds its axes.
fn holds_axes(state: GroupState) -> bool
    ensures { result ≡ spec.holds_axes state }
{
    !matches!(state, GroupState::GroupDisabled)
}

// Whether the group of an axis holds it.
fn is_held_by_group(at: Option<Membership>, parts: &Parts) -> bool
    ensures { result ≡ spec.is_held_by_group at (machine_of parts.now) }
{
    match at {
        None => false,
        Some(at) => match parts.groups.get(at.group) {
            None => false,
            Some(group) => holds_axes(group.state()),
        },
    }
}

// A command is asked of an axis.
fn ask_axis(
    instance: u16,
    block: &BlockDef,
    inputs: &Inputs,
    layout: &Layout,
    parts: &mut Parts,
) -> Result<bool, Refusal>
    requires sized { IsSized layout.now (machine_of parts.old) }
    requires there { block.now.object < length layout.now.axes }
    requires may { MayAskAxis instance block.now.object block.now.kind inputs.now
        (machine_of parts.old) }
    ensures answer { result ≡ axis_answer layout.now instance block.now.object block.now.kind
        inputs.now (machine_of parts.old) }
    ensures after { machine_of parts.new ≡ with_asked_axis layout.now instance block.now.object
        block.now.kind inputs.now (machine_of parts.old) }
    ensures sized { IsSized layout.now (machine_of parts.new) }
{
    let axis = block.object;
    let asked = AxisAsking {
        jerk: inputs.jerk,
        held: is_held_by_group(layout.membership(axis), parts),
        tables: layout.config().tables().len() as u16,
    };
    let wanted = wanted_of(instance, block.kind, inputs);
    command_axis(&wanted, axis, &asked, parts)
}

/// A command is asked of an axis, and its instance is answered.
#[tactic(auto, unfolding(crate::specs::calls::Calls::after_axis_command))]
pub fn call_axis(
    instance: u16,
    block: &BlockDef,
    inputs: &Inputs,
    layout: &Layout,
    parts: &mut Parts,
)
    requires sized { IsSized layout.now (machine_of parts.old) }
    requires there { block.now.object < length layout.now.axes }
    requires may { MayAskAxis instance block.now.object block.now.kind inputs.now
        (machine_of parts.old) }
    requires instance { instance < length layout.now.blocks }
    ensures { machine_of parts.new ≡ spec.after_axis_command layout.now instance block.now.object
        block.now.kind inputs.now (machine_of parts.old) }
{
    let told = ask_axis(instance, block, inputs, layout, parts);
    answer(instance, block.kind, told, parts);
}
