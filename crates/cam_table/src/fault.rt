// What is wrong with a list of points that makes no cam table.

use thiserror::Error;

/// Why a list of points makes no cam table. Rows are counted from 1.
#[derive(Debug, PartialEq, Eq, Drop, Error)]
pub enum CamFault {
    /// Fewer than 2 points.
    #[error("a cam table has at least 2 points")]
    TooFew,
    /// More than 4,096 points.
    #[error("a cam table has at most 4,096 points")]
    TooMany,
    /// A coordinate of this row is beyond 10^15 in size.
    #[error("row {0} has a coordinate beyond 10^15")]
    BadRow(u16),
    /// The master position of this row isn't above that of the row before.
    #[error("row {0} does not rise")]
    NotRising(u16),
    /// No memory for the points, which have no other fault.
    #[error("out of memory")]
    OutOfMemory,
}
