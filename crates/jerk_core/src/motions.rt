// Three setpoints, and the motion that they make.

/// Three setpoints of an axis, one after the other, in internal units.
#[derive(Clone, Copy, Debug, PartialEq, Eq)]
pub struct Setpoints {
    /// The setpoint two cycles ago.
    pub first: i64,
    /// The setpoint of the last cycle.
    pub before: i64,
    /// The setpoint of this cycle.
    pub current: i64,
}

/// A motion counted in its direction, in internal units.
#[derive(Clone, Copy, Debug, PartialEq, Eq)]
pub struct Motion {
    /// The room to the limit ahead.
    pub ahead: u64,
    /// The room to the limit in the other direction.
    pub behind: u64,
    /// The speed of the last cycle.
    pub last: u64,
    /// The speed of this cycle.
    pub speed: u64,
}
