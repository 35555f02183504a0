// A permit: what a caller knows of the one history.

use crate::rule::PermitSeat;
use std::marker::Model;

/// What a caller knows of the one history, and its right to a turn. Contracts see it as a
/// `PermitState`.
#[derive(Drop)]
pub struct Permit {
    pub(crate) seat: PermitSeat,
}

impl Model for Permit {
    ghost use Rattle.kernel_turn.specs.PermitState.{PermitState};

    ghost Value = { PermitState };

    ghost use Rattle.kernel_turn.specs.PermitKept.{IsKept, permit_of};

    ghost view = { permit_of };

    ghost invariant = { IsKept };
}
