// How large a machine may be.

ghost use Rattle.std.specs.Prelude.{◌≡◌, if◌then◌else◌, Some, None};
ghost use Rattle.motion_history.specs.Faults as faults;

use crate::fault::ConfigFault;

/// The most axes of a machine.
pub const MOST_AXES: usize = 16;

/// The most groups of a machine.
pub const MOST_GROUPS: usize = 4;

/// The most axes of a group.
pub const MOST_MEMBERS: usize = 6;

/// The most cam tables of a machine.
pub const MOST_TABLES: usize = 16;

/// The most tasks of a machine.
pub const MOST_TASKS: usize = 8;

/// The most blocks of a machine.
pub const MOST_BLOCKS: usize = 256;

/// The most cycles of a history.
pub const MOST_CYCLES: u32 = 200_000;

/// The most entries of a history.
pub const MOST_ENTRIES: u32 = 1_000_000;

/// The greatest lag of a drive, in steps.
pub const MOST_LAG: u8 = 64;

/// The most faults that a drive is given.
pub const MOST_FAULTS: u32 = 1000;

/// Whether a history may have this room.
pub fn is_room(cycles: u32, entries: u32) -> bool
    ensures { faults.room_fault cycles entries ≡
        (if result then None else Some ConfigFault.OutOfRange) }
{
    1 <= cycles && cycles <= MOST_CYCLES && 1 <= entries && entries <= MOST_ENTRIES
}
