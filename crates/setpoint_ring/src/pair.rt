// A ring and its two ends, and looking at them side by side.

ghost use Rattle.std.specs.Prelude.{◌≡◌, ◌≤◌, IfOk, length};
ghost use Rattle.setpoint_ring.specs.Beside.{AreBeside, AreNew};
ghost use Rattle.setpoint_ring.specs.Sides.{HasEnded};

use crate::numbered::{AnswersInOrder, OutputsInOrder};
use crate::{DriveEnd, KernelEnd, MOST_OUTPUTS, OutOfMemory};
use rtrb::RingBuffer;
use std::alloc::Global;

/// A ring with 1 to 4,096 slots each way, and one more for the end. Its whole room is taken here,
/// also that for the list of what the drive's end takes: nothing else takes memory.
pub fn ring(alloc: Global, room: u32) -> Result<(KernelEnd, DriveEnd), OutOfMemory>
    requires some { 1 ≤ room }
    requires few { room ≤ 4096 }
    ensures { IfOk result (λ ends. AreNew room ends.0 ends.1) }
{
    let slots = room as usize;
    let (outputs, drive_outputs) = RingBuffer::with_protocol::<Global, OutputsInOrder>(
        alloc,
        slots + 1,
    )?;
    let (drive_answers, answers) = RingBuffer::with_protocol::<Global, AnswersInOrder>(
        alloc, slots,
    )?;
    let took = Vec::with_capacity(alloc, MOST_OUTPUTS as usize)?;
    let kernel = KernelEnd {
        outputs,
        answers,
        sent: 0,
        taken: 0,
        told_end: false,
    };
    let drive = DriveEnd {
        outputs: drive_outputs,
        answers: drive_answers,
        took,
        sent: 0,
        last: None,
    };
    Ok((kernel, drive))
}

/// Looks at the two ends of one ring together, and answers how many outputs and how many answers
/// are in it.
pub fn beside(kernel: &mut KernelEnd, drive: &mut DriveEnd) -> (u32, u32)
    requires pair { kernel.old.ring ≡ drive.old.ring }
    ensures beside { AreBeside kernel.new drive.new }
    ensures outputs { result.0 ≡ length drive.new.waiting }
    ensures answers { result.1 ≡ length kernel.new.waiting }
    ensures kernel { kernel.new ≡ record kernel.old {
      waiting = kernel.new.waiting;
      free = kernel.new.free;
    } }
    ensures drive { drive.new ≡ record drive.old {
      waiting = drive.new.waiting;
      free = drive.new.free;
      ended = drive.new.ended;
    } }
    ensures all { HasEnded drive.old → drive.old.taken ≡ kernel.old.sent }
{
    let outputs = drive.outputs_beside(kernel);
    let answers = kernel.answers_beside(drive);
    (outputs, answers)
}
