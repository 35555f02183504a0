// The rules of a trace segment by their numbers.

/// No blank line ends the header.
pub const NO_BLANK_LINE: u8 = 1;

/// The first line gives no trace segment of version 1, and what was before it.
pub const NO_TRACE_SEGMENT: u8 = 2;

/// The kind is unknown, or doesn't stand here.
pub const OUT_OF_PLACE: u8 = 3;

/// The fields aren't those of the kind, each as it is written.
pub const NO_VALUE: u8 = 4;

/// The machine has no more of the kind, or eight commands wait already.
pub const TOO_MANY: u8 = 5;

/// The header ends before the machine is whole.
pub const TOO_SHORT: u8 = 6;
