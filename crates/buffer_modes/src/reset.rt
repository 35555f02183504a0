// A Reset of an axis or a group: it is pending until a cycle in which it may be done.

ghost use Rattle.std.specs.Prelude.{◌≡◌, ◌<◌, ◌++◌, length};
ghost use Rattle.command_pool.specs.Waiting.{told_to};
ghost use Rattle.buffer_modes.specs.Owners.{active_without};
ghost use Rattle.buffer_modes.specs.Resets.{reset_without};

use command_pool::{Finish, Note, Notes, Wanted, without};

/// A Reset or a GroupReset that is done in a later cycle.
#[derive(Clone, Copy, Debug, PartialEq, Eq)]
pub struct PendingReset {
    /// The instance that reports its end, where it still has one.
    pub owner: Option<u16>,
}

/// Reports the owner of a Reset, if there is one, how it ended.
pub fn tell_reset(pending: &PendingReset, finish: Finish, notes: &mut Notes)
    requires { length notes.old < 12 }
    ensures { notes.new ≡ notes.old ++ told_to pending.now.owner finish }
{
    if let Some(owner) = pending.owner {
        notes.add(Note { owner, finish });
    }
}

/// Takes an owner away from an active command.
pub fn disown_active(owner: u16, active: &mut Option<Wanted>)
    ensures { active.new ≡ active_without owner active.old }
{
    if let Some(wanted) = active {
        wanted.owner = without(wanted.owner, owner);
    }
}

/// Takes an owner away from a pending Reset.
pub fn disown_reset(owner: u16, reset: &mut Option<PendingReset>)
    ensures { reset.new ≡ reset_without owner reset.old }
{
    if let Some(pending) = reset {
        pending.owner = without(pending.owner, owner);
    }
}
