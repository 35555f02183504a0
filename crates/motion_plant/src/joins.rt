// Joining the drives and the tasks of a plant.

ghost use Rattle.std.specs.Prelude.{◌≡◌, ◌≤◌, ◌+◌, [], ℕ, None, Some, length, slice_get, slice_set, true, vec_capacity};
ghost use Rattle.drive_jobs.specs.Answered.{IsDone};
ghost use Rattle.drive_jobs.specs.Log.{IsLogOf};
ghost use Rattle.kernel_turn.specs.Turns.{IsJoined};
ghost use Rattle.motion_plant.specs.Jobs.{AreDrivesAt, AreJoined, AreTasksAt, job_lines, line_job, seat_job};
ghost use Rattle.motion_plant.specs.Joined.{HasMade, IsJoinedUpTo, IsSeated};
ghost use Rattle.motion_plant.specs.Lines.{IsLogAt};
ghost use Rattle.motion_plant.specs.Makers.{IsUpTo, Owns, own_entries};
ghost use Rattle.motion_plant.specs.Places.{Each};
ghost use Rattle.motion_plant.specs.TaskEnds.{TaskDone};
ghost use Rattle.motion_plant.specs.declared.task_job.TaskJobEnd.{TaskJobEnd};
ghost use Rattle.outside.specs.declared.TheConstants.{MOST_JOBS};

use crate::plant_job::{PlantJob, PlantJobEnd};
use crate::rooms::{Seats, push_within};
use crate::task_job::{TaskJob, TaskJobEnd};
use drive_jobs::{DriveJobEnd, DriveLink};
use kernel_turn::{KernelTurn, Permit};
use outside::{Gate, Host, Spawner};
use setpoint_ring::DriveLog;
use std::snapshot::Snapshot;
use std::sync::Wait;

/// Joins the drive at the other end of a line. Waits for the end of its job.
pub fn join_drive<H: Host + Wait, G: Gate + Drop + Send + 'static>(
    spawner: &mut Spawner<H, PlantJob<G>>,
    number: u32,
    line: &DriveLink,
) -> DriveJobEnd
    requires started { slice_get spawner.old.jobs number ≡ Some (line_job line.now) }
    ensures done { IsDone line.now.job.drive line.now.job.end.ring result }
    ensures joined { spawner.new ≡
        record spawner.old { jobs = slice_set spawner.old.jobs number None } }
{
    match spawner.join(number) {
        PlantJobEnd::Drive(end) => end,
        PlantJobEnd::Task(_) => unreachable!(),
    }
}

/// Joins a task. Waits for the end of its job.
pub fn join_task<H: Host + Wait, G: Gate + Drop + Send + 'static>(
    spawner: &mut Spawner<H, PlantJob<G>>,
    number: u32,
    seat: &Snapshot<TaskJob<G>>,
) -> TaskJobEnd
    requires started { slice_get spawner.old.jobs number ≡ Some (seat_job seat.now) }
    ensures done { TaskDone seat.now.value.permit seat.now.value.task
        (job_lines seat.now.value) result }
    ensures joined { spawner.new ≡
        record spawner.old { jobs = slice_set spawner.old.jobs number None } }
{
    match spawner.join(number) {
        PlantJobEnd::Task(end) => end,
        PlantJobEnd::Drive(_) => unreachable!(),
    }
}

// Joins a drive, which took all that stood in its ring before the end, and gives its log.
fn finish_drive<H: Host + Wait, G: Gate + Drop + Send + 'static>(
    spawner: &mut Spawner<H, PlantJob<G>>,
    number: u32,
    line: &mut DriveLink,
) -> DriveLog
    requires started { slice_get spawner.old.jobs number ≡ Some (line_job line.old) }
    ensures log { IsLogOf line.old.job.drive line.old.outs line.old.ins result }
    ensures joined { spawner.new ≡
        record spawner.old { jobs = slice_set spawner.old.jobs number None } }
{
    let end = join_drive(spawner, number, line);
    line.finish(end)
}

/// Joins the drives, whose jobs begin at a number, and gives their logs.
pub fn finish_drives<H: Host + Wait, G: Gate + Drop + Send + 'static>(
    spawner: &mut Spawner<H, PlantJob<G>>,
    base: u32,
    lines: &mut Vec<DriveLink>,
    logs: &mut Vec<DriveLog>,
)
    requires started { AreDrivesAt spawner.old.jobs base lines.old.items }
    requires room { (logs.old.items ≡ []) × (length lines.old.items ≤ vec_capacity logs.old) }
    requires few { base + length lines.old.items ≤ MOST_JOBS }
    ensures logs { (length logs.new.items ≡ length lines.old.items) ×
        Each (IsLogAt lines.old.items) logs.new.items }
    ensures rest { (n : ℕ) → base + length lines.old.items ≤ n →
        slice_get spawner.new.jobs n ≡ slice_get spawner.old.jobs n }
    ensures same { (spawner.new.faults ≡ spawner.old.faults) ×
        (length spawner.new.jobs ≡ length spawner.old.jobs) }
    ensures gone { AreJoined spawner.old.jobs spawner.new.jobs base (length lines.old.items) }
{
    for i in 0..lines.len() {
        let log = finish_drive(spawner, base + i as u32, &mut lines[i]);
        push_within(logs, log);
    }
}

// Joins a task, and its permit into the opening permit.
fn finish_task<H: Host + Wait, G: Gate + Drop + Send + 'static>(
    spawner: &mut Spawner<H, PlantJob<G>>,
    number: u32,
    turn: &KernelTurn,
    permit: &mut Permit,
    seat: &Snapshot<TaskJob<G>>,
)
    requires started { slice_get spawner.old.jobs number ≡ Some (seat_job seat.now) }
    requires own { (permit.old.table ≡ turn.now) × (permit.old.opening ≡ true) ×
        (seat.now.value.permit.table ≡ turn.now) }
    ensures joined { spawner.new ≡
        record spawner.old { jobs = slice_set spawner.old.jobs number None } }
    ensures taken { (e : TaskJobEnd) × TaskDone seat.now.value.permit seat.now.value.task
        (job_lines seat.now.value) e × IsJoined permit.old e.permit permit.new }
{
    let TaskJobEnd { permit: other, .. } = join_task(spawner, number, seat);
    turn.join(permit, other);
}

/// Joins the tasks, whose jobs begin at a number, and their passes into the opening permit.
pub fn finish_tasks<H: Host + Wait, G: Gate + Drop + Send + 'static>(
    spawner: &mut Spawner<H, PlantJob<G>>,
    base: u32,
    turn: &KernelTurn,
    permit: &mut Permit,
    seats: &Seats<G>,
)
    requires started { AreTasksAt spawner.old.jobs base seats.now.items }
    requires few { base + length seats.now.items ≤ MOST_JOBS }
    requires own { (permit.old.table ≡ turn.now) × (permit.old.opening ≡ true) ×
        (permit.old.out ≡ length seats.now.items) }
    requires seats { Each (IsSeated turn.now permit.old.config) seats.now.items }
    requires owns { Owns (IsUpTo permit.old.config 0) permit.old.own permit.old.seen }
    ensures joined { IsJoinedUpTo (own_entries permit.old.own permit.old.seen) permit.old
        (length seats.now.items) permit.new }
    ensures tasks { Each (λ i z. HasMade (job_lines z.value) permit.old.config i permit.new)
        seats.now.items }
    ensures same { (spawner.new.faults ≡ spawner.old.faults) ×
        (length spawner.new.jobs ≡ length spawner.old.jobs) }
    ensures gone { AreJoined spawner.old.jobs spawner.new.jobs base (length seats.now.items) }
{
    for i in 0..seats.len() {
        finish_task(spawner, base + i as u32, turn, permit, &seats[i]);
    }
}
