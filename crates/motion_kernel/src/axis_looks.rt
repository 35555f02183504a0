// What an axis looks at in a cycle.

ghost use Rattle.std.specs.Prelude.{◌≡◌, ◌<◌, ◌++◌, ◌∷◌, [], ℕ, length, map, pos, slice_index_or, slice_set};
ghost use Rattle.motion_kernel.specs.looks.Around.{around_of};
ghost use Rattle.motion_kernel.specs.looks.AxisLooks as spec;
ghost use Rattle.motion_kernel.specs.looks.Masters as masters;
ghost use Rattle.motion_kernel.specs.kept.Machine.{IsSized};
ghost use Rattle.motion_kernel.specs.Seen.{machine_of};

use crate::drive_answers::answer_at;
use crate::layout::Layout;
use crate::masters::master_of;
use crate::memberships::Membership;
use crate::parts::Parts;
use crate::telling::is_held;
use axis_core::{AxisCore, AxisLook};
use command_pool::Follow;
use group_core::GroupStep;
use plc_types::DriveIn;

/// What the axes look at in a cycle.
#[derive(Clone, Copy)]
pub struct Around<'a> {
    /// The drives' answers.
    pub answers: &'a [DriveIn],
    /// The setpoints of all axes at the end of the previous cycle: the one before, and the current
    /// one.
    pub pairs: &'a [(i64, i64)],
    /// What the groups ask of their axes.
    pub steps: &'a [GroupStep],
}

/// No step of a group.
pub const NO_STEP: GroupStep = GroupStep {
    places: [0; 6],
    ends: false,
};

// The step of a group.
fn step_at(steps: &[GroupStep], group: usize) -> GroupStep
    ensures { result ≡ spec.step_at steps.now group }
{
    match steps.get(group) {
        Some(step) => *step,
        None => NO_STEP,
    }
}

// The place of an axis in a step.
fn place_in(step: GroupStep, place: usize) -> i64
    ensures { result ≡ slice_index_or step.places place (pos 0) }
{
    match step.places.get(place) {
        Some(place) => *place,
        None => 0,
    }
}

// The place that a group asks of one of its axes.
fn place_asked(at: Option<Membership>, steps: &[GroupStep]) -> Option<i64>
    ensures { result ≡ spec.place_asked at steps.now }
{
    match at {
        None => None,
        Some(at) => Some(place_in(step_at(steps, at.group), at.place)),
    }
}

// Whether the path of an axis's group ends.
fn end_asked(at: Option<Membership>, steps: &[GroupStep]) -> bool
    ensures { result ≡ spec.end_asked at steps.now }
{
    match at {
        None => false,
        Some(at) => step_at(steps, at.group).ends,
    }
}

// Whom the active command of an axis follows.
fn follow_of(axis: &AxisCore) -> Follow
    ensures { result ≡ masters.follow_of axis.now.active }
{
    match &axis.axis().active {
        Some(wanted) => wanted.follow,
        None => Follow::None,
    }
}

/// What an axis looks at in a cycle.
pub fn axis_look(layout: &Layout, around: &Around, axis: u8, parts: &Parts) -> AxisLook
    requires sized { IsSized layout.now (machine_of parts.now) }
    requires there { axis < length layout.now.axes }
    ensures { result ≡ spec.axis_look layout.now (around_of around.now)
        (machine_of parts.now) axis }
{
    let core = &parts.axes[axis as usize];
    let master = master_of(follow_of(core), layout.config().tables(), around.pairs);
    let at = layout.membership(axis);
    AxisLook {
        input: answer_at(around.answers, axis),
        master: master.pair,
        cam: master.cam,
        cam_ended: master.ended,
        path: place_asked(at, around.steps),
        path_ends: end_asked(at, around.steps),
        stop_held: is_held(parts.instances.as_slice(), core.stop_owner()),
    }
}
