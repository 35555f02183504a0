// What a drive took in a run, as its trace ends with it.

use plc_types::DriveState;

/// What a drive took, and where it is at the end.
#[derive(Clone, Copy, Debug, PartialEq, Eq)]
pub struct DriveEndRow {
    /// How many setpoints it took.
    pub taken: u32,
    pub state: DriveState,
    /// The position actual value, object 6064h, in drive increments.
    pub actual: i32,
}
