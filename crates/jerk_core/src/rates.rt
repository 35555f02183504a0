// The limits of a speed and of its changes, as sizes.

/// The limits of a speed and of its changes, in internal units.
#[derive(Clone, Copy, Debug, PartialEq, Eq)]
pub struct JerkRates {
    /// The greatest speed, 1 to 10^10.
    pub v: u64,
    /// The greatest gain of speed per cycle, 1 to 10^10.
    pub a: u64,
    /// The greatest loss of speed per cycle, 1 to 10^10.
    pub d: u64,
    /// The greatest change of such a gain or loss per cycle, 2 to 10^10.
    pub j: u64,
}
