// MC_GroupEnable and MC_GroupDisable (PLCopen Motion Control Part 4).

ghost use Rattle.std.specs.Prelude.{◌≡◌};
ghost use Rattle.group_core.specs.blocks.Enable as spec;
ghost use Rattle.axis_state.specs.GroupDiagram.{IsFrom};
ghost use Rattle.axis_state.specs.declared.group_diagram.GroupEvent.TheVariants as event;

use crate::group::Group;
use crate::reason::Reason::{self, *};
use axis_state::{GroupEvent, group_next};

/// The reasons against which a GroupEnable is tested, in their order.
pub const ENABLE_TESTS: &[Reason] = &[
    NotPowered,
    InErrorStop,
    InStopping,
    InHoming,
    NotAtRest,
    GroupStateRefuses,
];

/// The reason against which a GroupDisable is tested.
pub const DISABLE_TESTS: &[Reason] = &[GroupStateRefuses];

/// The group is enabled.
pub fn enable(group: &mut Group)
    requires { IsFrom group.old.state event.Enable }
    ensures { group.new ≡ spec.enabled group.old }
{
    group.state = group_next(group.state, GroupEvent::Enable);
}

/// The group is disabled, without an error.
pub fn disable(group: &mut Group)
    requires { IsFrom group.old.state event.Disable }
    ensures { group.new ≡ spec.disabled group.old }
{
    group.state = group_next(group.state, GroupEvent::Disable);
    group.error = 0;
}
