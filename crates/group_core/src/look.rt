// What a call, a cycle and the kernel look at.

ghost use Rattle.std.specs.Prelude.{◌≡◌, ◌≤◌, take};

use command_pool::Follow;
use plc_types::{AxisState, Limits};

/// What the members of a group are in a call or a cycle. Of each array the first `count` are of
/// account, in the group's order; a setpoint after them is 0.
#[derive(Clone, Copy)]
pub struct GroupLook {
    /// How many axes the group has.
    pub count: u8,
    pub limits: [Limits; 6],
    /// The current setpoints, in internal units.
    pub setpoints: [i64; 6],
    pub states: [AxisState; 6],
    /// The number of the first member's error in this cycle, in the group's order, or 0.
    pub error: u16,
    /// The Execute of the instance that holds GroupStopping.
    pub stop_held: bool,
}

/// What a cycle of a group asks of its axes.
#[derive(Clone, Copy, Debug, PartialEq, Eq)]
pub struct GroupStep {
    /// Where each axis stands on the path in this cycle; its setpoint where there is no path.
    pub places: [i64; 6],
    /// Whether the axes on the path go to Standstill in this cycle.
    pub ends: bool,
}

/// What is reported of the active command.
#[derive(Clone, Copy, Debug, PartialEq, Eq)]
pub struct ActiveLook {
    pub owner: Option<u16>,
    pub follow: Follow,
    /// Always false: no command of a group reaches a velocity, a gear or a cam.
    pub reached: bool,
}

/// The states of the axes.
pub fn states_in(members: &GroupLook) -> &[AxisState]
    requires { members.now.count ≤ 6 }
    ensures { result.now ≡ take members.now.count members.now.states }
{
    &members.states[..members.count as usize]
}

/// The limits of the axes.
pub fn limits_in(members: &GroupLook) -> &[Limits]
    requires { members.now.count ≤ 6 }
    ensures { result.now ≡ take members.now.count members.now.limits }
{
    &members.limits[..members.count as usize]
}
