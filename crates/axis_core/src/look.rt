// What a cycle and the kernel look at.

use command_pool::Follow;
use plc_types::DriveIn;

/// What a cycle brings to an axis.
#[derive(Clone, Copy)]
pub struct AxisLook {
    /// The drive's answer.
    pub input: DriveIn,
    /// The master's setpoints at the end of the previous cycle: the one before, and the current
    /// one.
    pub master: (i64, i64),
    /// The position that the cam asks for, at most 10^15 in size.
    pub cam: i64,
    /// Whether the master is at or past the last point of the cam table.
    pub cam_ended: bool,
    /// Where the axis stands on its group's path in this cycle.
    pub path: Option<i64>,
    /// Whether the axes on the path of the group go to Standstill in this cycle.
    pub path_ends: bool,
    /// The Execute of the instance that holds Stopping.
    pub stop_held: bool,
}

/// What is reported of the active command.
#[derive(Clone, Copy, Debug, PartialEq, Eq)]
pub struct ActiveLook {
    pub owner: Option<u16>,
    pub follow: Follow,
    /// InVelocity, InGear or InSync as of the last cycle.
    pub reached: bool,
}
