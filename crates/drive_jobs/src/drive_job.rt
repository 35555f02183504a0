// The job of a drive: it takes outputs from its ring, steps by each, and answers.

ghost use Rattle.std.specs.Prelude.{◌≡◌, ◌≤◌, ◌+◌, ◌++◌, ◌∷◌, [], length};
ghost use Rattle.drive_sim.specs.Steps.{answer_of, drive_stepped};
ghost use Rattle.drive_jobs.specs.Answered.{IsAnswered, IsDone};
ghost use Rattle.setpoint_ring.specs.Sides.{HasEnded};

use crossbeam_utils::Backoff;
use drive_sim::Drive;
use setpoint_ring::{DriveEnd, DriveIn, DriveOut, Numbered};
use std::sync::Wait;

/// A drive, with its end of the ring, as it is given to a thread.
#[derive(Drop)]
pub struct DriveJob {
    pub drive: Drive,
    pub end: DriveEnd,
}

/// The drive and its end of the ring, once no output comes any more.
#[derive(Drop)]
pub struct DriveJobEnd {
    pub drive: Drive,
    pub end: DriveEnd,
}

/// Sends the drive's opening answer, then steps the drive by each output and sends its answer,
/// until the ring is ended. Waits for outputs and for free slots, so that it may never return.
pub fn work_drive<R: Wait>(rt: &R, job: DriveJob) -> DriveJobEnd
    requires unused { (job.end.sent ≡ []) × (job.end.taken ≡ []) }
    ensures done { IsDone job.drive job.end.ring result }
{
    let DriveJob { mut drive, mut end } = job;
    run_drive(rt, &mut drive, &mut end);
    DriveJobEnd { drive, end }
}

// Answers from the opening answer on, until the ring is ended.
fn run_drive<R: Wait>(rt: &R, drive: &mut Drive, end: &mut DriveEnd)
    requires unused { (end.old.sent ≡ []) × (end.old.taken ≡ []) }
    ensures ring { end.new.ring ≡ end.old.ring }
    ensures ended { HasEnded end.new }
    ensures answered { IsAnswered drive.old drive.new end.new }
{
    push_answer(rt, end, 1, drive.answer());
    let backoff = Backoff::new();
    for _ in rt.forever() {
        match end.take() {
            Some(output) => answer_one(rt, drive, end, output),
            None => {
                if end.ended() {
                    return;
                }
                backoff.snooze();
            }
        }
    }
    unreachable!()
}

// Steps the drive by one output, and answers it.
fn answer_one<R: Wait>(rt: &R, drive: &mut Drive, end: &mut DriveEnd, output: Numbered<DriveOut>)
    requires number { output.number + 1 ≡ length end.old.sent + 1 }
    requires few { output.number ≤ 200000 }
    ensures ring { end.new.ring ≡ end.old.ring }
    ensures taken { end.new.taken ≡ end.old.taken }
    ensures sent { end.new.sent ≡ end.old.sent ++ answer_of drive.new ∷ [] }
    ensures drive { drive.new ≡ drive_stepped drive.old output.item }
{
    let answer = drive.step(&output.item);
    push_answer(rt, end, output.number + 1, answer);
}

// Sends an answer once a slot is free.
fn push_answer<R: Wait>(rt: &R, end: &mut DriveEnd, number: u32, item: DriveIn)
    requires next { number ≡ length end.old.sent + 1 }
    ensures ring { end.new.ring ≡ end.old.ring }
    ensures taken { end.new.taken ≡ end.old.taken }
    ensures sent { end.new.sent ≡ end.old.sent ++ item ∷ [] }
{
    let backoff = Backoff::new();
    for _ in rt.forever() {
        if end.push(Numbered { number, item }).is_ok() {
            return;
        }
        backoff.snooze();
    }
    unreachable!()
}
