// What an axis is between two events.

use buffer_modes::PendingReset;
use command_pool::Wanted;
use plc_types::{AxisState, Limits};

/// The greatest size of a setpoint, in internal units: that of an axis that is not driven is the
/// place of its drive's count.
pub const MOST_SETPOINT: u64 = 5_000_000_000_000_000_000;

/// The greatest size of a target, in internal units, before it is looked at whether it lies within
/// the limits.
pub const MOST_TARGET: u64 = 8_000_000_000_000_000_000;

/// The greatest size of an offset after a Home, in internal units, before it is looked at whether
/// the axis has counts with it.
pub const MOST_MOVED: u64 = 9_200_000_000_000_000_000;

/// An axis. Positions and steps are in internal units.
#[derive(Clone, Copy)]
pub struct Axis {
    pub limits: Limits,
    /// Internal units per drive increment.
    pub inc: i64,
    pub state: AxisState,
    /// The axis error, 101 to 106 in ErrorStop, else 0.
    pub error: u16,
    /// The Enable of the last Power call.
    pub power: bool,
    /// Whether a Power call since the last cycle had Enable false.
    pub was_off: bool,
    /// Whether the axis was driven in the last cycle, or at opening.
    pub driven: bool,
    /// The setpoint before the current one.
    pub previous: i64,
    pub setpoint: i64,
    /// What Home has moved the coordinate by.
    pub offset: i64,
    pub active: Option<Wanted>,
    /// InVelocity, InGear or InSync of the active command as of the last cycle.
    pub reached: bool,
    pub reset: Option<PendingReset>,
    /// The instance that holds Stopping.
    pub hold: Option<u16>,
    /// The controlword of the last cycle.
    pub controlword: u16,
}
