// Whether the commands of a group may be active or wait (PLCopen Motion Control Part 4).

ghost use Rattle.std.specs.Prelude.{◌≡◌, ◌↔◌, IsTrue, Some, pos};
ghost use Rattle.axis_core.specs.Ranges.{IsBetween};
ghost use Rattle.command_pool.specs.Rates.{AreRates};
ghost use Rattle.command_pool.specs.declared.wanted.Wanted.{Wanted};
ghost use Rattle.group_core.specs.GroupKept as kept;
ghost use Rattle.group_core.specs.GroupKept.{AreNumbers, IsActive, IsDeceleration};

use crate::limits::is_between;
use group_core::{BlockKind, Group, GroupState, Rates, Wanted};
use motion_numbers::MOST_STEP;

// Whether a command may be active in a state.
fn fits(state: GroupState, kind: BlockKind) -> bool
    ensures { result ≡ kept.fits state kind }
{
    match state {
        GroupState::GroupMoving => matches!(
            kind,
            BlockKind::MoveLinearAbsolute | BlockKind::GroupHalt
        ),
        GroupState::GroupStopping => matches!(kind, BlockKind::GroupStop),
        _ => false,
    }
}

// Whether the Velocity is in its range.
fn is_velocity(rates: &Rates) -> bool
    ensures { IsTrue result ↔ IsBetween (pos 1) rates.now.v (pos MOST_STEP) }
{
    is_between(1, rates.v, MOST_STEP as i64)
}

// Whether the Acceleration is in its range.
fn is_acceleration(rates: &Rates) -> bool
    ensures { IsTrue result ↔ IsBetween (pos 1) rates.now.a (pos MOST_STEP) }
{
    is_between(1, rates.a, MOST_STEP as i64)
}

// Whether the Deceleration is in its range.
fn is_deceleration(rates: &Rates) -> bool
    ensures { IsTrue result ↔ IsDeceleration rates.now.d }
{
    is_between(1, rates.d, MOST_STEP as i64)
}

// Whether the rates of a line are in their ranges.
pub fn are_rates(rates: &Rates) -> bool
    ensures { IsTrue result ↔ AreRates rates.now }
{
    is_velocity(rates) && is_acceleration(rates) && is_deceleration(rates)
}

// Whether the rates of a command are in their ranges, as its kind asks.
fn are_numbers(wanted: &Wanted) -> bool
    ensures { IsTrue result ↔ AreNumbers wanted.now.kind wanted.now }
{
    match wanted.kind {
        BlockKind::MoveLinearAbsolute => are_rates(&wanted.rates),
        _ => is_deceleration(&wanted.rates),
    }
}

// Whether a command may be active in a state.
fn is_active(state: GroupState, wanted: &Wanted) -> bool
    ensures { IsTrue result ↔ IsActive state wanted.now }
{
    fits(state, wanted.kind) && are_numbers(wanted)
}

// Whether the active command of a group, if there is one, may be so.
pub fn has_command(group: &Group) -> bool
    ensures { IsTrue result ↔
        ((w : Wanted) → group.now.active ≡ Some w → IsActive group.now.state w) }
{
    match &group.active {
        Some(wanted) => is_active(group.state, wanted),
        None => true,
    }
}
