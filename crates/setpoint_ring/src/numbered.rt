// Items with their numbers, and in which order they go through a ring.

ghost use Rattle.std.specs.Prelude.{◌≡◌, ◌<◌, [], ◌∷◌, ◌++◌, IfSome, IfNone, IsSome, length};
ghost use Rattle.rtrb.specs.Ring.{received, known_items, SameConsumer};

use crate::DriveOut;
use rtrb::{Consumer, Protocol};
use std::alloc::Global;

/// An item with its number, counted from 1.
#[derive(Clone, Copy, Debug, PartialEq, Eq)]
pub struct Numbered<T> {
    pub number: u32,
    pub item: T,
}

/// What goes to the drive: the outputs, and after the last of them the end.
#[derive(Clone, Copy, Debug, PartialEq, Eq)]
pub enum ToDrive {
    Output(Numbered<DriveOut>),
    End,
}

/// Outputs are numbered from 1 without a gap, up to 200,000, and nothing comes after the end.
pub struct OutputsInOrder;

impl Protocol<ToDrive> for OutputsInOrder {
    ghost use Rattle.setpoint_ring.specs.Order.{IsNextOutput};

    ghost allows = { IsNextOutput };
}

/// Answers are numbered from 1 without a gap.
pub struct AnswersInOrder;

impl<T> Protocol<Numbered<T>> for AnswersInOrder {
    ghost use Rattle.setpoint_ring.specs.Order.{IsNextAnswer};

    ghost allows = { IsNextAnswer };
}

// Takes the next item, without another look where one is known to be there.
pub(crate) fn take_next<T, P: Protocol<Numbered<T>>>(
    ring: &mut Consumer<Numbered<T>, Global, P>,
) -> Option<Numbered<T>>
    ensures ring { SameConsumer ring.old ring.new }
    ensures taken { IfSome result (λ next. received ring.new ≡ received ring.old ++ next ∷ []) }
    ensures allowed { IfSome result (λ next. P.allows (received ring.old) next) }
    ensures known { 0 < length (known_items ring.old) →
        IfSome result (λ next. known_items ring.old ≡ next ∷ known_items ring.new) }
    ensures none { IfNone result (received ring.new ≡ received ring.old) }
    ensures empty { IfNone result (known_items ring.new ≡ []) }
    ensures succeeds { 0 < length (known_items ring.old) → IsSome result }
{
    if ring.cached_slots() > 0 {
        return Some(ring.pop_known());
    }
    ring.pop().ok()
}
