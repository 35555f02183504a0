// Why a command on a group is refused.

ghost use Rattle.std.specs.Prelude.{◌≡◌, ◌≤◌, pos};
ghost use Rattle.group_core.specs.Asking.{asked_of};
ghost use Rattle.group_core.specs.Refusals as spec;
ghost use Rattle.motion_numbers.specs.Ranges as ranges;

use crate::group::Group;
use crate::kinds::{may_come, tests_of};
use crate::look::{GroupLook, limits_in, states_in};
use crate::reason::Reason;
use crate::states::{any_disabled, any_homing, any_in_error_stop, any_in_stopping, any_moved};
use command_pool::Wanted;
use motion_numbers::{MOST_STEP, is_outside};
use plc_types::BufferMode;

/// What a command is asked of.
#[derive(Clone, Copy)]
pub struct Asking<'a> {
    pub group: &'a Group,
    /// Whether the group's path moves.
    pub moves: bool,
    /// How many commands wait after the active one.
    pub waiting: u8,
    pub wanted: &'a Wanted,
    pub jerk: i64,
    pub members: &'a GroupLook,
}

// Whether a rate of a command is outside its range.
fn is_no_rate(rate: i64) -> bool
    ensures { result ≡ ranges.is_outside (pos 1) rate (pos MOST_STEP) }
{
    is_outside(1, rate, MOST_STEP as i64)
}

// Whether a target of an axis of the group is outside its limits.
#[tactic(auto, unfolding(crate::specs::Refusals::any_outside))]
fn any_outside(members: &GroupLook, targets: &[i64; 6]) -> bool
    requires { members.now.count ≤ 6 }
    ensures { result ≡ spec.any_outside members.now.count (spec.limits_in members.now) targets.now }
{
    let limits = limits_in(members);
    let mut outside = false;
    for axis in 0..members.count as usize {
        outside = outside || is_outside(limits[axis].lo, targets[axis], limits[axis].hi);
    }
    outside
}

// Whether eight commands wait after an active one, and the command would wait too.
#[tactic(auto, unfolding(crate::specs::Refusals::holds))]
fn is_queue_full(asking: &Asking) -> bool
    ensures { result ≡ spec.holds Reason.QueueFull (asked_of asking.now) }
{
    !matches!(asking.wanted.mode, BufferMode::Aborting)
        && asking.group.active.is_some()
        && asking.waiting == 8
}

// Whether a mode is a blending one.
fn is_blending(mode: BufferMode) -> bool
    ensures { result ≡ spec.is_blending mode }
{
    !matches!(mode, BufferMode::Aborting | BufferMode::Buffered)
}

// Whether a reason to refuse a command holds.
#[tactic(auto, unfolding(crate::specs::Refusals::holds))]
fn holds(reason: Reason, asking: &Asking) -> bool
    requires { asking.now.members.now.count ≤ 6 }
    ensures { result ≡ spec.holds reason (asked_of asking.now) }
{
    let Asking {
        wanted,
        members,
        ..
    } = *asking;
    match reason {
        Reason::NotPowered => any_disabled(states_in(members)),
        Reason::InErrorStop => any_in_error_stop(states_in(members)),
        Reason::InStopping => any_in_stopping(states_in(members)),
        Reason::InHoming => any_homing(states_in(members)),
        Reason::BadVelocity => is_no_rate(wanted.rates.v),
        Reason::BadAcceleration => is_no_rate(wanted.rates.a),
        Reason::BadDeceleration => is_no_rate(wanted.rates.d),
        Reason::JerkRefused => asking.jerk != 0,
        Reason::TargetOutside => any_outside(members, &wanted.targets),
        Reason::QueueFull => is_queue_full(asking),
        Reason::NotAtRest => any_moved(states_in(members)),
        Reason::GroupStateRefuses => !may_come(wanted.kind, asking.group.state, asking.moves),
        Reason::BlendRefused => is_blending(wanted.mode),
        Reason::CircularRefused => true,
    }
}

/// Why a command is refused: the first reason of its kind that holds.
#[tactic(auto, unfolding(crate::specs::Refusals::refusal_of))]
pub fn refusal_of(asking: &Asking) -> Option<Reason>
    requires { asking.now.members.now.count ≤ 6 }
    ensures { result ≡ spec.refusal_of (asked_of asking.now) }
{
    for reason in tests_of(asking.wanted.kind) {
        if holds(*reason, asking) {
            return Some(*reason);
        }
    }
    None
}

impl Reason {
    /// The ErrorID.
    pub fn number(self) -> u16
        ensures { result ≡ spec.number_of self }
    {
        match self {
            Reason::NotPowered => 1,
            Reason::InErrorStop => 2,
            Reason::InStopping => 3,
            Reason::InHoming => 4,
            Reason::BadVelocity => 6,
            Reason::BadAcceleration => 7,
            Reason::BadDeceleration => 8,
            Reason::JerkRefused => 9,
            Reason::TargetOutside => 10,
            Reason::QueueFull => 11,
            Reason::NotAtRest => 12,
            Reason::GroupStateRefuses => 16,
            Reason::BlendRefused => 17,
            Reason::CircularRefused => 18,
        }
    }
}
