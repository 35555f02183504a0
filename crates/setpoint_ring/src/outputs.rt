// What stands next in the outputs' way, seen from the drive and from the kernel.

ghost use Rattle.std.specs.Prelude.{◌≡◌, ◌<◌, ◌≤◌, ◌↔◌, ◌∷◌, ◌++◌, [], false, IfNone, IfSome, IsTrue, length};
ghost use mathlib.Core.List.{IsPrefix};
ghost use Rattle.rtrb.specs.Ring.{received, known_items, known_free, ConsumerLooked, ProducerLooked, SameConsumer};
ghost use Rattle.setpoint_ring.specs.Order.{IsNextOutput, has_end, next_of, outputs_of};
ghost use Rattle.setpoint_ring.specs.declared.numbered.ToDrive.TheVariants as to_drive;

use crate::DriveOut;
use crate::numbered::{Numbered, OutputsInOrder, ToDrive};
use rtrb::{Consumer, Producer};
use std::alloc::Global;

/// The drive's side of the outputs' way.
pub type OutputsIn = Consumer<ToDrive, Global, OutputsInOrder>;

/// The kernel's side of it.
pub type OutputsOut = Producer<ToDrive, Global, OutputsInOrder>;

/// What stands next in the outputs' way.
#[derive(Clone, Copy)]
pub enum Next {
    Nothing,
    Output,
    End,
}

// What it is that stands next.
fn kind_of(next: &ToDrive) -> Next
    ensures { result ≡ next_of (next.now ∷ []) }
{
    match next {
        ToDrive::Output(_) => Next::Output,
        ToDrive::End => Next::End,
    }
}

/// Looks what stands next.
pub fn look(ring: &mut OutputsIn) -> Next
    ensures looked { ConsumerLooked ring.old ring.new }
    ensures kept { 0 < length (known_items ring.old) →
        known_items ring.new ≡ known_items ring.old }
    ensures value { result ≡ next_of (known_items ring.new) }
{
    if ring.cached_slots() > 0 {
        return kind_of(ring.peek_known());
    }
    if ring.slots() == 0 {
        return Next::Nothing;
    }
    kind_of(ring.peek_known())
}

/// Takes the next output. The end stays where it is.
pub fn take_output(ring: &mut OutputsIn) -> Option<Numbered<DriveOut>>
    ensures ring { SameConsumer ring.old ring.new }
    ensures taken { IfSome result (λ output.
        received ring.new ≡ received ring.old ++ to_drive.Output output ∷ []) }
    ensures allowed { IfSome result (λ output.
        IsNextOutput (received ring.old) (to_drive.Output output)) }
    ensures known { IfSome result (λ output.
        IsPrefix (known_items ring.old) (to_drive.Output output ∷ known_items ring.new)) }
    ensures first { 0 < length (known_items ring.old) → IfSome result (λ output.
        known_items ring.old ≡ to_drive.Output output ∷ known_items ring.new) }
    ensures none { IfNone result (ConsumerLooked ring.old ring.new) }
    ensures empty { IfNone result (outputs_of (known_items ring.new) ≡ []) }
{
    let Next::Output = look(ring) else {
        return None;
    };
    match ring.pop_known() {
        ToDrive::Output(output) => Some(output),
        ToDrive::End => unreachable!(),
    }
}

/// Looks whether a slot is free beside the one for the end.
pub fn has_room(ring: &mut OutputsOut) -> bool
    ensures looked { ProducerLooked ring.old ring.new }
    ensures value { IsTrue result ↔ (1 < known_free ring.new) }
{
    ring.cached_slots() > 1 || ring.slots() > 1
}
