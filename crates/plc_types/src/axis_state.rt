// The states of an axis.

/// The states of an axis (PLCopen Motion Control Part 1, the state diagram).
#[derive(Clone, Copy, Debug, PartialEq, Eq)]
pub enum AxisState {
    Disabled,
    Standstill,
    Homing,
    Stopping,
    DiscreteMotion,
    ContinuousMotion,
    SynchronizedMotion,
    ErrorStop,
}
