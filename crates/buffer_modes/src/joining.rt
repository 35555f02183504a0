// The active command of an axis or group, and those that wait in its list.

ghost use Rattle.std.specs.Prelude.{◌≡◌, ◌↔◌, ◌<◌, ◌≤◌, ◌++◌, [], None, true, length, IfOk, OnOk, OnErr, IsErr, IsTrue, slice_set};
ghost use Rattle.command_pool.specs.Waiting.{queue_of};
ghost use Rattle.buffer_modes.specs.Queue.{commands, is_aborting, is_full, is_active_at_once, admitted, noted, end_notes, active_note, follower};

use command_pool::{CommandPool, Finish, Notes, Wanted};
use plc_types::BufferMode;

/// A command is active and eight wait, so that no other can wait after them.
#[derive(Clone, Copy, Debug, PartialEq, Eq)]
pub struct QueueFull;

/// Lets a command join those of its axis or group, and answers whether it is the active one.
///
/// An aborting command ends the active one and all that wait with Aborted, and becomes active. Any
/// other becomes active where none is, and else waits after the last. It is refused where eight
/// wait. At most three notes may be there.
pub fn admit(
    pool: &mut CommandPool,
    list: u8,
    active: &mut Option<Wanted>,
    wanted: Wanted,
    notes: &mut Notes,
) -> Result<bool, QueueFull>
    requires there { list < length pool.old }
    requires room { length notes.old ≤ 3 }
    ensures active { OnOk result (active.new ≡ (admitted (commands active.old pool.old list) wanted).active) }
    ensures waiting { OnOk result (pool.new
        ≡ slice_set pool.old list (admitted (commands active.old pool.old list) wanted).waiting) }
    ensures notes { OnOk result (notes.new ≡ notes.old ++ noted (commands active.old pool.old list) wanted) }
    ensures started { IfOk result (λ now. now ≡ is_active_at_once (commands active.old pool.old list) wanted) }
    ensures full { IsErr result ↔ (is_full (commands active.old pool.old list) wanted ≡ true) }
    ensures active_stays { OnErr result (active.new ≡ active.old) }
    ensures waiting_stay { OnErr result (pool.new ≡ pool.old) }
    ensures notes_stay { OnErr result (notes.new ≡ notes.old) }
{
    if aborts(wanted.mode) {
        abort_all(pool, list, active, Finish::Aborted, notes);
        *active = Some(wanted);
        return Ok(true);
    }
    if active.is_none() {
        *active = Some(wanted);
        return Ok(true);
    }
    match pool.push_last(list, wanted) {
        Ok(()) => Ok(false),
        Err(_) => Err(QueueFull),
    }
}

/// Lets the first command that waits become the active one, in the place of the one that was, and
/// answers whether one waited. Where none waits, the active one stays. Who was active is notified
/// of its end by the caller.
pub fn take_over(pool: &mut CommandPool, list: u8, active: &mut Option<Wanted>) -> bool
    requires { list < length pool.old }
    ensures active { active.new ≡ (follower (commands active.old pool.old list)).active }
    ensures waiting { pool.new ≡ slice_set pool.old list (follower (commands active.old pool.old list)).waiting }
    ensures found { IsTrue result ↔ (0 < length (queue_of pool.old list)) }
{
    let Some(first) = pool.pop_first(list) else {
        return false;
    };
    *active = Some(first);
    true
}

/// Ends the active command so, and all that wait with Aborted, the active one first. At most three
/// notes may be there.
pub fn abort_all(
    pool: &mut CommandPool,
    list: u8,
    active: &mut Option<Wanted>,
    finish: Finish,
    notes: &mut Notes,
)
    requires there { list < length pool.old }
    requires room { length notes.old ≤ 3 }
    ensures active { active.new ≡ None }
    ensures waiting { pool.new ≡ slice_set pool.old list [] }
    ensures notes { notes.new ≡ notes.old ++ end_notes finish (commands active.old pool.old list) }
{
    end_active(active, finish, notes);
    pool.clear(list, notes);
}

// Ends the active command so, where there is one.
fn end_active(active: &mut Option<Wanted>, finish: Finish, notes: &mut Notes)
    requires { length notes.old < 12 }
    ensures active { active.new ≡ None }
    ensures notes { notes.new ≡ notes.old ++ active_note finish active.old }
{
    let Some(ended) = *active else {
        return;
    };
    notes.add_end(&ended, finish);
    *active = None;
}

// Whether the mode ends the commands that are there.
fn aborts(mode: BufferMode) -> bool
    ensures { result ≡ is_aborting mode }
{
    matches!(mode, BufferMode::Aborting)
}
