// In which group an axis is.

ghost use Rattle.std.specs.Prelude.{◌≡◌, nat_eq};
ghost use Rattle.std.specs.List.{position};
ghost use Rattle.motion_kernel.specs.members.Members as spec;

use motion_history::GroupDef;

/// Where an axis stands in its group.
#[derive(Clone, Copy, Debug, PartialEq, Eq)]
pub struct Membership {
    /// The number of the group.
    pub group: usize,
    /// The place of the axis in the group's order, from 0.
    pub place: usize,
}

// The place of an axis among some, if it is one of them.
fn place_in(axis: u8, members: &[u8]) -> Option<usize>
    ensures { result ≡ position (nat_eq axis) members.now }
{
    members.iter().position(|member| *member == axis)
}

/// Where an axis stands in the first of some groups that has it.
pub fn membership_of(axis: u8, groups: &[GroupDef]) -> Option<Membership>
    ensures { result ≡ spec.membership_from axis 0 groups.now }
{
    for (group, def) in groups.iter().enumerate() {
        if let Some(place) = place_in(axis, def.members()) {
            return Some(Membership { group, place });
        }
    }
    None
}
