// Why a command is refused.

/// Why a command on an axis is refused; ErrorID is the number after each.
#[derive(Clone, Copy, Debug, PartialEq, Eq)]
pub enum Reason {
    /// 1: the axis is Disabled.
    NotPowered,
    /// 2: it is in ErrorStop.
    InErrorStop,
    /// 3: it is in Stopping.
    InStopping,
    /// 4: it is in Homing.
    InHoming,
    /// 5: its group is not GroupDisabled.
    GroupHoldsAxis,
    /// 6: Velocity is outside 1..=vmax; for MoveVelocity outside -vmax..=vmax.
    BadVelocity,
    /// 7: Acceleration is outside 1..=amax.
    BadAcceleration,
    /// 8: Deceleration is outside 1..=dmax.
    BadDeceleration,
    /// 9: Jerk is not 0.
    JerkRefused,
    /// 10: a target that is known in the call is outside the limits; for Home also where the new
    /// offset has no counts.
    TargetOutside,
    /// 11: the mode is not aborting, a command is active and eight wait.
    QueueFull,
    /// 12: Home: the axis is not in Standstill.
    NotAtRest,
    /// 13: the gear's numerator or denominator is out of range.
    BadRatio,
    /// 14: there is no cam table of this number.
    NoTable,
    /// 15: the master is the axis itself.
    SelfMaster,
    /// 19: GearOut: the active command is not GearIn; CamOut: it is not CamIn.
    NotFollowing,
}
