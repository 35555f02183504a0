// An entry of a history: as it is kept, and as it is looked at.

ghost use Rattle.std.specs.Prelude.{◌≡◌, ◌<◌, ◌≤◌, ◌*◌, length, slice_get};
ghost use Rattle.motion_history.specs.Looks.{told};
ghost use Rattle.motion_history.specs.Rows as kept;
ghost use Rattle.motion_history.specs.Stored.{call_entry};

use plc_types::{AxisRow, GroupRow, Inputs, Outputs};

/// An entry of a history, as it is looked at.
#[derive(Clone, Copy)]
pub enum EntryLook<'a> {
    /// A block was called with these inputs and replied so.
    Call {
        instance: u16,
        inputs: &'a Inputs,
        reply: &'a Outputs,
    },
    /// A cycle, counted from 1, left these rows of the axes and groups.
    Cycle {
        number: u32,
        axes: &'a [AxisRow],
        groups: &'a [GroupRow],
    },
    /// A task ended.
    End {
        task: u8,
    },
}

/// A cycle of a history, as it is looked at: its number, counted from 1, and the rows that it left
/// of the axes and groups.
#[derive(Clone, Copy)]
pub struct CycleLook<'a> {
    pub number: u32,
    pub axes: &'a [AxisRow],
    pub groups: &'a [GroupRow],
}

/// A call that was made, and its reply.
#[derive(Clone, Copy)]
pub struct CallMade {
    pub instance: u16,
    pub inputs: Inputs,
    pub reply: Outputs,
}

/// An entry as it is kept: a call by its place among the calls, and a cycle without its rows.
#[derive(Clone, Copy)]
pub enum Stored {
    Call { place: u32 },
    Cycle { number: u32 },
    End { task: u8 },
}

/// The entry that is kept at a place.
pub fn stored_at(stored: &[Stored], place: u64) -> Option<Stored>
    ensures { result ≡ slice_get stored.now place }
{
    stored.get(place as usize).copied()
}

/// The call at a place.
pub fn call_at<'a>(calls: &'a [CallMade], place: u32) -> EntryLook<'a>
    requires { place < length calls.now }
    ensures { told result ≡ call_entry (slice_get calls.now place) }
{
    let made = &calls[place as usize];
    EntryLook::Call {
        instance: made.instance,
        inputs: &made.inputs,
        reply: &made.reply,
    }
}

/// The rows of a cycle, counted from 1, where each cycle has this many.
pub fn rows_at<T>(rows: &[T], width: usize, number: u32) -> &[T]
    requires some { 1 ≤ number }
    requires there { number * width ≤ length rows.now }
    ensures { result.now ≡ kept.rows_at width number rows.now }
{
    let first = (number - 1) as usize * width;
    &rows[first..first + width]
}
