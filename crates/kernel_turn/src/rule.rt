// The rule of the lock, and what its steps give the permits.

use crate::housed::Housed;
use atomic_table::{Join, Play, Seat, Shared, Split, TableRule};
use motion_history::Config;
use std::marker::Model;
use std::snapshot::Snapshot;

/// What a permit knows. Contracts see it as a `PermitView`, and no value of it is made.
pub struct View;

impl Model for View {
    ghost use Rattle.kernel_turn.specs.PermitView.{PermitView};

    ghost Value = { PermitView };

    ghost use Rattle.kernel_turn.specs.Views.{spent_view};

    ghost view = { λ _. spent_view };
}

/// The rule of the lock, by the configuration.
pub struct TurnRule;

impl TableRule<Option<Housed>, View, Snapshot<Config>> for TurnRule {
    ghost use Rattle.kernel_turn.specs.Rule.{Invariant};
    ghost use Rattle.kernel_turn.specs.Views.{opening_view};

    ghost holds = { λ k. Invariant k.value };

    ghost first = { λ k. opening_view k.value };
}

/// A number is drawn.
pub struct Drawing;

impl Play<Option<Housed>, View> for Drawing {
    ghost use Rattle.kernel_turn.specs.Steps.{Draws};

    ghost then = { Draws };
}

/// The kernel is taken where the number in hand is served.
pub struct Looking;

impl Play<Option<Housed>, View> for Looking {
    ghost use Rattle.kernel_turn.specs.Steps.{Looks};

    ghost then = { Looks };
}

/// The kernel is given back, and the next number served.
pub struct Passing;

impl Play<Option<Housed>, View> for Passing {
    ghost use Rattle.std.specs.Prelude.{false};
    ghost use Rattle.kernel_turn.specs.Steps.{Passes};

    ghost then = { Passes false };
}

/// The same, and the permit has stopped the kernel.
pub struct Stopping;

impl Play<Option<Housed>, View> for Stopping {
    ghost use Rattle.std.specs.Prelude.{true};
    ghost use Rattle.kernel_turn.specs.Steps.{Passes};

    ghost then = { Passes true };
}

/// The longer of two histories is found, which begins with the other.
pub struct Settling;

impl Play<Option<Housed>, View> for Settling {
    ghost use Rattle.kernel_turn.specs.Steps.{Settles};

    ghost then = { Settles };
}

/// A permit is split from the opening permit.
pub struct Splits;

impl Split<View> for Splits {
    ghost use Rattle.kernel_turn.specs.Views.{split_view, view_after_split};

    ghost left = { view_after_split };

    ghost right = { split_view };
}

/// A permit is joined into the opening permit.
pub struct Joins;

impl Join<View> for Joins {
    ghost use Rattle.kernel_turn.specs.Views.{spent_view, view_after_join};

    ghost both = { view_after_join };

    ghost spent = { spent_view };
}

/// What the permits share.
pub type Top = Shared<Option<Housed>, View, Snapshot<Config>, TurnRule>;

/// The seat of a permit.
pub type PermitSeat = Seat<Option<Housed>, View>;
