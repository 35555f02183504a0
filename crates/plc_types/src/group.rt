// The states of a group.

/// The states of a group of axes (PLCopen Motion Control Part 4, the state diagram).
#[derive(Clone, Copy, Debug, PartialEq, Eq)]
pub enum GroupState {
    GroupDisabled,
    GroupStandby,
    GroupMoving,
    /// No block of this profile leads to it.
    GroupHoming,
    GroupStopping,
    GroupErrorStop,
}

/// What a cycle shows of a group.
#[derive(Clone, Copy, Debug, PartialEq, Eq)]
pub struct GroupRow {
    /// The state after the cycle.
    pub state: GroupState,
    /// The group's error, 101 to 106 in GroupErrorStop, else 0.
    pub error: u16,
}
