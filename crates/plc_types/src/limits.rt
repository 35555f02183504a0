// The limits of an axis or of a path.

/// The limits of an axis or of a group's path, in internal units.
#[derive(Clone, Copy, Debug, PartialEq, Eq)]
pub struct Limits {
    /// The least setpoint; for an axis at least -10^15, for a path 0.
    pub lo: i64,
    /// The greatest setpoint; for an axis above `lo` and at most 10^15, for a path 0 to 2 * 10^15.
    pub hi: i64,
    /// The greatest step per cycle, 1 to 10^10.
    pub vmax: i64,
    /// The greatest gain of speed per cycle; for an axis 2 to 10^10, for a path from 1.
    pub amax: i64,
    /// The greatest loss of speed per cycle, from `amax` to 10^10.
    pub dmax: i64,
}
