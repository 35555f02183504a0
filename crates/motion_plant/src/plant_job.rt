// The jobs of a plant's threads: drives and tasks.

use crate::task_job::{TaskJob, TaskJobEnd, work_task};
use drive_jobs::{DriveJob, DriveJobEnd, work_drive};
use outside::{Gate, Worker};
use std::sync::Wait;

/// The job of a drive or of a task.
#[derive(Drop)]
pub enum PlantJob<G: Gate + Drop> {
    Drive(DriveJob),
    Task(TaskJob<G>),
}

/// What is left of the job of a drive or of a task.
#[derive(Drop)]
pub enum PlantJobEnd {
    Drive(DriveJobEnd),
    Task(TaskJobEnd),
}

impl<H: Wait, G: Gate + Drop + Send + 'static> Worker<H> for PlantJob<G> {
    type End = PlantJobEnd;

    ghost use Rattle.motion_plant.specs.Jobs.{Ready, Works};

    ghost ready = { Ready };

    ghost works = { Works };

    fn work(self, rt: &H) -> PlantJobEnd {
        match self {
            PlantJob::Drive(job) => PlantJobEnd::Drive(work_drive(rt, job)),
            PlantJob::Task(job) => PlantJobEnd::Task(work_task(rt, job)),
        }
    }
}
