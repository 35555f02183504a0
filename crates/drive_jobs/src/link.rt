// The line to a drive's thread: the kernel's end of its ring, beside the job that has the other.

ghost use Rattle.std.specs.Prelude.{◌≡◌, ◌≤◌, ◌+◌, ◌++◌, ◌∷◌, [], false, true, length, IfOk};
ghost use Rattle.drive_jobs.specs.Answered.{IsDone};
ghost use Rattle.drive_jobs.specs.Log.{IsLogOf};

use crate::drive_job::{DriveJob, DriveJobEnd};
use crossbeam_utils::Backoff;
use drive_sim::Drive;
use setpoint_ring::{DriveIn, DriveLog, DriveOut, KernelEnd, Numbered, OutOfMemory, beside, ring};
use std::alloc::Global;
use std::marker::Model;
use std::snapshot::Snapshot;
use std::sync::Wait;

// How many slots the ring of a drive has each way: the output of a cycle, and the next one's.
const SLOTS: u32 = 2;

/// The kernel's end of a drive's ring. Contracts see with it the job that has the other end, what
/// the drive was given and which answers were taken, as a `DriveLinkState`.
#[derive(Drop)]
pub struct DriveLink {
    pub(crate) kernel: KernelEnd,
    pub(crate) job: Snapshot<DriveJob>,
}

impl Model for DriveLink {
    ghost use Rattle.drive_jobs.specs.DriveLinkState.{DriveLinkState};

    ghost Value = { DriveLinkState };

    ghost use Rattle.drive_jobs.specs.DriveLinkKept.{link_of, IsDriveLink};

    ghost view = { link_of };

    ghost invariant = { IsDriveLink };
}

impl DriveLink {
    /// The drive's next answer, waited for.
    pub fn take<R: Wait>(&mut self, rt: &R) -> DriveIn
        ensures { self.new ≡ record self.old { ins = self.old.ins ++ result ∷ [] } }
    {
        take_from(rt, &mut self.kernel)
    }

    /// Gives the drive the output of a cycle, once a slot is free.
    pub fn push<R: Wait>(&mut self, rt: &R, number: u32, item: DriveOut)
        requires next { number ≡ length self.old.outs + 1 }
        requires few { number ≤ 200000 }
        requires goes_on { self.old.ended ≡ false }
        ensures { self.new ≡ record self.old { outs = self.old.outs ++ item ∷ [] } }
    {
        push_to(rt, &mut self.kernel, Numbered { number, item });
    }

    /// Reports the drive that no output comes any more.
    pub fn end(&mut self)
        ensures { self.new ≡ record self.old { ended = true } }
    {
        self.kernel.end();
    }

    /// What the drive took and answered in all, once its job has ended so: each output that it was
    /// given, in order and once.
    pub fn finish(&mut self, end: DriveJobEnd) -> DriveLog
        requires done { IsDone self.old.job.drive self.old.job.end.ring end }
        ensures log { IsLogOf self.old.job.drive self.old.outs self.old.ins result }
    {
        let DriveJobEnd { mut end, .. } = end;
        beside(&mut self.kernel, &mut end);
        end.finish()
    }
}

// The next answer, waited for.
fn take_from<R: Wait>(rt: &R, kernel: &mut KernelEnd) -> DriveIn
    ensures { kernel.new ≡ record kernel.old {
      taken = kernel.old.taken ++ result ∷ [];
      waiting = kernel.new.waiting;
    } }
{
    let backoff = Backoff::new();
    for _ in rt.forever() {
        if let Some(answer) = kernel.take() {
            return answer.item;
        }
        backoff.snooze();
    }
    unreachable!()
}

// Sends an output once a slot is free.
fn push_to<R: Wait>(rt: &R, kernel: &mut KernelEnd, output: Numbered<DriveOut>)
    requires next { output.number ≡ length kernel.old.sent + 1 }
    requires few { output.number ≤ 200000 }
    requires goes_on { kernel.old.ended ≡ false }
    ensures { kernel.new ≡ record kernel.old {
      sent = kernel.old.sent ++ output.item ∷ [];
      free = kernel.new.free;
    } }
{
    let backoff = Backoff::new();
    for _ in rt.forever() {
        if kernel.push(output).is_ok() {
            return;
        }
        backoff.snooze();
    }
    unreachable!()
}

/// A line to a drive, and the drive's job, which is to be started in a thread.
pub fn start_link(alloc: Global, drive: Drive) -> Result<(DriveLink, DriveJob), OutOfMemory>
    ensures link { IfOk result (λ r. r.0 ≡
        record { job = r.1; outs = []; ins = []; ended = false }) }
    ensures job { IfOk result (λ r. (r.1.drive ≡ drive) ×
        (r.1.end.sent ≡ []) × (r.1.end.taken ≡ [])) }
{
    let (kernel, end) = ring(alloc, SLOTS)?;
    let job = DriveJob { drive, end };
    let shown = Snapshot::of(&job);
    Ok((DriveLink { kernel, job: shown }, job))
}
