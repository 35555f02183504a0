// What a group keeps of its commands where their owner is taken away.

ghost use Rattle.std.specs.Prelude.{◌≡◌};
ghost use Rattle.group_core.specs.Calls as spec;

use crate::group::Group;
use buffer_modes::{disown_active, disown_reset};
use command_pool::without;

/// Takes an owner away from the active command, the pending GroupReset and the hold.
#[tactic(auto, unfolding(crate::specs::Calls::group_without))]
pub fn detach(owner: u16, group: &mut Group)
    ensures { group.new ≡ spec.group_without owner group.old }
{
    disown_active(owner, &mut group.active);
    disown_reset(owner, &mut group.reset);
    group.hold = without(group.hold, owner);
}
