// The limits of an axis with limited jerk.
use plc_types::Limits;

/// The limits of an axis whose change of acceleration is limited too, in internal units.
#[derive(Clone, Copy, Debug, PartialEq, Eq)]
pub struct JerkLimits {
    /// The limits of setpoint, step and change of step.
    pub axis: Limits,
    /// The greatest change of the change of step per cycle, 2 to 10^10.
    pub jmax: i64,
}
