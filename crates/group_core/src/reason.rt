// Why a command on a group is refused.

/// Why a command on a group is refused; ErrorID is the number after each.
#[derive(Clone, Copy, Debug, PartialEq, Eq)]
pub enum Reason {
    /// 1: an axis of the group is Disabled.
    NotPowered,
    /// 2: one is in ErrorStop.
    InErrorStop,
    /// 3: one is in Stopping.
    InStopping,
    /// 4: one is in Homing.
    InHoming,
    /// 6: Velocity is outside 1..=10^10.
    BadVelocity,
    /// 7: Acceleration is outside 1..=10^10.
    BadAcceleration,
    /// 8: Deceleration is outside 1..=10^10.
    BadDeceleration,
    /// 9: Jerk is not 0.
    JerkRefused,
    /// 10: a target is outside the limits of its axis.
    TargetOutside,
    /// 11: the mode is not aborting, a command is active and eight wait.
    QueueFull,
    /// 12: an axis is not in Standstill.
    NotAtRest,
    /// 16: the group's state, with its path step, is not one from which the block's event leads.
    GroupStateRefuses,
    /// 17: the mode is a blending one.
    BlendRefused,
    /// 18: MoveCircularAbsolute.
    CircularRefused,
}
