// The codes that an exported function answers. The header lists them with what a loop does on each.

/// What was asked was done.
pub const OK: u32 = 0;

/// The handle holds no machine.
pub const CLOSED: u32 = 1;

/// The handle holds a machine already.
pub const OPEN: u32 = 2;

/// There was no memory.
pub const NO_MEMORY: u32 = 3;

/// The text breaks a rule.
pub const REFUSED: u32 = 4;

/// There is no item of this number.
pub const UNKNOWN: u32 = 5;

/// An array has more or fewer items than there are axes.
pub const LENGTH: u32 = 6;

/// The inputs are none of the block's kind.
pub const RANGE: u32 = 7;

/// The segment has no room for an entry.
pub const FULL: u32 = 8;

/// No cycle is left in the segment, or no more segments can be counted.
pub const OVER: u32 = 9;

/// No cycle was made in the segment yet.
pub const NO_CYCLE: u32 = 10;

/// The two handles aren't machines of one configuration. C has 11 for a null pointer.
pub const OTHER: u32 = 12;

/// Earlier entries were given out.
pub const LATER: u32 = 13;

/// In place of a number where there is none.
pub const NO_NUMBER: u32 = 0xFFFF_FFFF;
