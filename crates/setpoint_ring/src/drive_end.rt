// The drive's end of a ring: it takes outputs, keeps them, and sends answers.

ghost use Rattle.std.specs.Prelude.{◌≡◌, ◌≢◌, ◌<◌, ◌≤◌, ◌+◌, [], ◌∷◌, ◌++◌, IfErr, IfSome, IfNone, IsOk, IsSome, IsTrue, OnOk, Some, None, true, length, vec_len, vec_capacity, ◌↔◌};
ghost use Rattle.std.specs.List.{last_or};
ghost use mathlib.Core.List.{IsPrefix};
ghost use Rattle.setpoint_ring.specs.Sides.{HasEnded};

use crate::logs::{DriveLog, OutList};
use crate::numbered::{AnswersInOrder, Numbered};
use crate::outputs::{Next, OutputsIn, look, take_output};
use crate::{DriveIn, DriveOut, KernelEnd};
use rtrb::{Producer, PushError};
use std::alloc::Global;
use std::marker::Model;

/// The drive's end of a ring, with the list of what it took.
#[derive(Drop)]
pub struct DriveEnd {
    pub(crate) outputs: OutputsIn,
    pub(crate) answers: Producer<Numbered<DriveIn>, Global, AnswersInOrder>,
    pub(crate) took: Vec<DriveOut>,
    pub(crate) sent: u32,
    pub(crate) last: Option<DriveIn>,
}

impl Model for DriveEnd {
    ghost use Rattle.setpoint_ring.specs.Sides.{DriveSide};

    ghost Value = { DriveSide };

    ghost use Rattle.setpoint_ring.specs.Inside.{drive_side_of, IsDriveEnd};

    ghost view = { drive_side_of };

    ghost invariant = { IsDriveEnd };
}

impl DriveEnd {
    /// Sends an answer, or gives it back where no slot is free.
    pub fn push(&mut self, answer: Numbered<DriveIn>) -> Result<(), Numbered<DriveIn>>
        requires next { answer.number ≡ length self.old.sent + 1 }
        ensures sent { OnOk result (self.new ≡ record self.old {
          sent = self.old.sent ++ answer.item ∷ [];
          free = self.new.free;
        }) }
        ensures slots { OnOk result (self.old.free ≤ self.new.free + 1) }
        ensures full { IfErr result (λ back. (back ≡ answer) × (self.new ≡ self.old)) }
        ensures succeeds { 0 < self.old.free → IsOk result }
    {
        match self.answers.push(answer) {
            Ok(()) => {
                self.sent = answer.number;
                self.last = Some(answer.item);
                Ok(())
            }
            Err(PushError::Full(back)) => Err(back),
        }
    }

    /// Takes the next output, or nothing where none is there or the end is next.
    pub fn take(&mut self) -> Option<Numbered<DriveOut>>
        ensures taken { IfSome result (λ output. self.new ≡ record self.old {
          taken = self.old.taken ++ output.item ∷ [];
          waiting = self.new.waiting;
          ended = self.new.ended;
        }) }
        ensures number { IfSome result (λ output. output.number ≡ length self.new.taken) }
        ensures few { IfSome result (λ output. output.number ≤ 200000) }
        ensures waiting { 0 < length self.old.waiting →
            IfSome result (λ output. self.old.waiting ≡ output.item ∷ self.new.waiting) }
        ensures none { IfNone result (self.new ≡ record self.old { ended = self.new.ended }) }
        ensures succeeds { 0 < length self.old.waiting → IsSome result }
        ensures end { HasEnded self.old → result ≡ None }
        ensures stays { self.old.ended ≡ true → self.new.ended ≡ true }
    {
        let output = take_output(&mut self.outputs)?;
        push_within(&mut self.took, output.item);
        Some(output)
    }

    /// Whether the end stands next in the ring. All outputs that the kernel sent were then taken,
    /// as `beside` says.
    pub fn ended(&mut self) -> bool
        ensures same { self.new ≡ record self.old {
          waiting = self.new.waiting;
          ended = self.new.ended;
        } }
        ensures waiting { IsPrefix self.old.waiting self.new.waiting }
        ensures ended { IsTrue result ↔ HasEnded self.new }
        ensures stays { self.old.ended ≡ true → self.new.ended ≡ true }
    {
        matches!(look(&mut self.outputs), Next::End)
    }

    // Looks at both ends of the outputs' way together, and answers how many outputs are in it.
    pub(crate) fn outputs_beside(&mut self, kernel: &mut KernelEnd) -> u32
        requires pair { kernel.old.ring ≡ self.old.ring }
        ensures outputs { self.new.taken ++ self.new.waiting ≡ kernel.new.sent }
        ensures slots { kernel.new.ring.room ≤ kernel.new.free + length self.new.waiting }
        ensures count { result ≡ length self.new.waiting }
        ensures all { HasEnded self.old → self.old.taken ≡ kernel.old.sent }
        ensures drive { self.new ≡ record self.old {
          waiting = self.new.waiting;
          ended = self.new.ended;
        } }
        ensures kernel { kernel.new ≡ record kernel.old { free = kernel.new.free } }
    {
        kernel.outputs.slots_beside(&mut self.outputs);
        self.outputs.slots_beside(&mut kernel.outputs);
        kernel.sent - self.took.len() as u32
    }

    /// How many answers were sent, the last of them, and the outputs that were taken.
    pub fn finish(self) -> DriveLog
        requires answered { self.sent ≢ [] }
        ensures sent { result.sent ≡ length self.sent }
        ensures taken { result.taken ≡ length self.taken }
        ensures took { result.took ≡ self.taken }
        ensures last { last_or None self.sent ≡ Some result.last }
    {
        let DriveEnd {
            took,
            sent,
            last,
            ..
        } = self;
        let Some(last) = last else {
            unreachable!();
        };
        DriveLog {
            sent,
            taken: took.len() as u32,
            took: OutList::of(took),
            last,
        }
    }
}

// Puts an output into room that is there.
fn push_within(outputs: &mut Vec<DriveOut>, output: DriveOut)
    requires { vec_len outputs.old < vec_capacity outputs.old }
    ensures items { outputs.new.items ≡ outputs.old.items ++ output ∷ [] }
    ensures room { vec_capacity outputs.old ≤ vec_capacity outputs.new }
{
    let _ = outputs.push(output);
}
