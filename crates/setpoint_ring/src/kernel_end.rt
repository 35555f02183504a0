// The kernel's end of a ring: it sends outputs and takes answers.

ghost use Rattle.std.specs.Prelude.{◌≡◌, ◌<◌, ◌≤◌, ◌+◌, [], ◌∷◌, ◌++◌, IfErr, IfSome, IfNone, IsOk, IsSome, OnOk, length, true, false};

use crate::logs::KernelLog;
use crate::numbered::{AnswersInOrder, Numbered, ToDrive, take_next};
use crate::outputs::{OutputsOut, has_room};
use crate::{DriveEnd, DriveIn, DriveOut};
use rtrb::Consumer;
use std::alloc::Global;
use std::marker::Model;

/// The kernel's end of a ring.
#[derive(Drop)]
pub struct KernelEnd {
    pub(crate) outputs: OutputsOut,
    pub(crate) answers: Consumer<Numbered<DriveIn>, Global, AnswersInOrder>,
    pub(crate) sent: u32,
    pub(crate) taken: u32,
    pub(crate) told_end: bool,
}

impl Model for KernelEnd {
    ghost use Rattle.setpoint_ring.specs.Sides.{KernelSide};

    ghost Value = { KernelSide };

    ghost use Rattle.setpoint_ring.specs.Inside.{kernel_side_of, IsKernelEnd};

    ghost view = { kernel_side_of };

    ghost invariant = { IsKernelEnd };
}

impl KernelEnd {
    /// Sends the output of a cycle, whose number is the cycle's, or gives it back where no slot
    /// is free.
    pub fn push(&mut self, output: Numbered<DriveOut>) -> Result<(), Numbered<DriveOut>>
        requires next { output.number ≡ length self.old.sent + 1 }
        requires few { output.number ≤ 200000 }
        requires open { self.old.ended ≡ false }
        ensures sent { OnOk result (self.new ≡ record self.old {
          sent = self.old.sent ++ output.item ∷ [];
          free = self.new.free;
        }) }
        ensures slots { OnOk result (self.old.free ≤ self.new.free + 1) }
        ensures full { IfErr result (λ back. (back ≡ output) × (self.new ≡ self.old)) }
        ensures succeeds { 0 < self.old.free → IsOk result }
    {
        if !has_room(&mut self.outputs) {
            return Err(output);
        }
        self.outputs.push_reserved(ToDrive::Output(output));
        self.sent = output.number;
        Ok(())
    }

    /// Takes the next answer, or nothing where none is there.
    pub fn take(&mut self) -> Option<Numbered<DriveIn>>
        ensures taken { IfSome result (λ answer. self.new ≡ record self.old {
          taken = self.old.taken ++ answer.item ∷ [];
          waiting = self.new.waiting;
        }) }
        ensures number { IfSome result (λ answer. answer.number ≡ length self.new.taken) }
        ensures waiting { 0 < length self.old.waiting →
            IfSome result (λ answer. self.old.waiting ≡ answer.item ∷ self.new.waiting) }
        ensures none { IfNone result (self.new ≡ self.old) }
        ensures succeeds { 0 < length self.old.waiting → IsSome result }
    {
        let answer = take_next(&mut self.answers)?;
        self.taken = answer.number;
        Some(answer)
    }

    /// Sends the end after the last output, for which a slot is always kept.
    pub fn end(&mut self)
        ensures { self.new ≡ record self.old { ended = true } }
    {
        if !self.told_end {
            self.outputs.push_reserved(ToDrive::End);
            self.told_end = true;
        }
    }

    /// How many outputs were sent and how many answers taken.
    pub fn finish(self) -> KernelLog
        ensures sent { result.sent ≡ length self.sent }
        ensures taken { result.taken ≡ length self.taken }
    {
        KernelLog {
            sent: self.sent,
            taken: self.taken,
        }
    }

    // Looks at both ends of the answers' way together, and answers how many answers are in it.
    pub(crate) fn answers_beside(&mut self, drive: &mut DriveEnd) -> u32
        requires pair { self.old.ring ≡ drive.old.ring }
        ensures answers { self.new.taken ++ self.new.waiting ≡ drive.new.sent }
        ensures slots { drive.new.ring.room ≤ drive.new.free + length self.new.waiting }
        ensures count { result ≡ length self.new.waiting }
        ensures kernel { self.new ≡ record self.old { waiting = self.new.waiting } }
        ensures drive { drive.new ≡ record drive.old { free = drive.new.free } }
    {
        drive.answers.slots_beside(&mut self.answers);
        self.answers.slots_beside(&mut drive.answers) as u32
    }
}
