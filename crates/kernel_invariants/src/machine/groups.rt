// Whether a group of a machine satisfies the invariant.

ghost use Rattle.std.specs.Prelude.{◌≡◌, ◌↔◌, IsTrue, ℕ, ◌<◌, ◌≤◌, length, map, take};
ghost use Rattle.motion_kernel.specs.Machine.{group_at};
ghost use Rattle.motion_kernel.specs.Seen.{placed};
ghost use Rattle.motion_kernel.specs.kept.Machine.{IsGroupKept, IsSized};
ghost use Rattle.motion_kernel.specs.kept.Machine as machine;
ghost use Rattle.motion_kernel.specs.members.Members.{member_at, members_at};

use crate::group::is_group_kept;
use crate::machine::limits_of;
use group_core::{GroupOnPath, Limits, LinePath};
use motion_history::{Config, MOST_MEMBERS, configurations_are_sound};
use motion_kernel::{Start, members_in};

// What stands after the limits of a group's axes.
const NO_LIMITS: Limits = Limits {
    lo: 0,
    hi: 0,
    vmax: 0,
    amax: 0,
    dmax: 0,
};

// The limits of some axes of a configuration, in their order.
fn limits_in(config: &Config, members: &[u8]) -> [Limits; MOST_MEMBERS]
    requires few { length members.now ≤ 6 }
    requires there { (place : ℕ) → place < length members.now →
        member_at members.now place < length config.now.axes }
    ensures { take (length members.now) result ≡ map (machine.limits_of config.now) members.now }
{
    let mut limits = [NO_LIMITS; MOST_MEMBERS];
    for (place, member) in members.iter().enumerate() {
        limits[place] = limits_of(config, *member);
    }
    limits
}

// Whether a group of this number, on its path, is so.
fn is_group(config: &Config, start: &Start, number: u8, on: &GroupOnPath<LinePath>) -> bool
    requires sized { IsSized config.now start.now }
    requires there { number < length start.now.groups }
    requires is { group_at start.now number ≡ placed on.now }
    ensures { IsTrue result ↔ IsGroupKept config.now start.now number }
{
    let members = members_in(config, number);
    let limits = limits_in(config, members);
    let list = config.axes().len() as u8 + number;
    // laws
    configurations_are_sound();
    on.group.axes as usize == members.len()
        && is_group_kept(start, list, &limits[..members.len()], on)
}

// Whether a group of a machine is so.
pub fn is_group_at(config: &Config, start: &Start, number: u8) -> bool
    requires sized { IsSized config.now start.now }
    requires there { number < length start.now.groups }
    ensures { IsTrue result ↔ IsGroupKept config.now start.now number }
{
    match start.group(number) {
        Some(on) => is_group(config, start, number, on),
        None => false,
    }
}
