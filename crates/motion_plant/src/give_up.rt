// The way out where not all jobs could be started.

ghost use Rattle.std.specs.Prelude.{◌≡◌, ◌≤◌, ◌+◌, ℕ, Some, length, slice_get};
ghost use Rattle.std.specs.Arc.{arc_value};
ghost use Rattle.motion_plant.specs.Jobs.{AreDrivesAt, AreJoined, AreTasksAt};
ghost use Rattle.motion_plant.specs.Places.{Each};
ghost use Rattle.outside.specs.declared.TheConstants.{MOST_JOBS};

use crate::finish::end_all;
use crate::joins::{join_drive, join_task};
use crate::plant_job::PlantJob;
use crate::rooms::{OpenKernel, Seats, StartedJobs};
use drive_jobs::DriveLink;
use outside::{Gate, Host, Spawner};
use std::sync::Wait;

// Joins drives whose logs nobody wants.
fn drop_drives<H: Host + Wait, G: Gate + Drop + Send + 'static>(
    spawner: &mut Spawner<H, PlantJob<G>>,
    base: u32,
    lines: &Vec<DriveLink>,
)
    requires started { AreDrivesAt spawner.old.jobs base lines.now.items }
    requires few { base + length lines.now.items ≤ MOST_JOBS }
    ensures rest { (n : ℕ) → base + length lines.now.items ≤ n →
        slice_get spawner.new.jobs n ≡ slice_get spawner.old.jobs n }
    ensures same { spawner.new.faults ≡ spawner.old.faults }
    ensures joined { AreJoined spawner.old.jobs spawner.new.jobs base (length lines.now.items) }
{
    for i in 0..lines.len() {
        join_drive(spawner, base + i as u32, &lines[i]);
    }
}

// Joins tasks whose passes nobody wants.
fn drop_tasks<H: Host + Wait, G: Gate + Drop + Send + 'static>(
    spawner: &mut Spawner<H, PlantJob<G>>,
    base: u32,
    seats: &Seats<G>,
)
    requires started { AreTasksAt spawner.old.jobs base seats.now.items }
    requires few { base + length seats.now.items ≤ MOST_JOBS }
    ensures same { spawner.new.faults ≡ spawner.old.faults }
    ensures joined { AreJoined spawner.old.jobs spawner.new.jobs base (length seats.now.items) }
{
    for i in 0..seats.len() {
        join_task(spawner, base + i as u32, &seats[i]);
    }
}

/// Stops the kernel, so that the tasks end, gives the drives that no output comes, and joins all
/// that were started.
pub fn give_up<H: Host + Wait, G: Gate + Drop + Send + 'static>(
    rt: &H,
    spawner: &mut Spawner<H, PlantJob<G>>,
    opened: OpenKernel,
    jobs: StartedJobs<G>,
)
    requires started { AreDrivesAt spawner.old.jobs jobs.base jobs.lines.items ×
        AreTasksAt spawner.old.jobs (jobs.base + length jobs.lines.items) jobs.seats.items }
    requires few { jobs.base + length jobs.lines.items + length jobs.seats.items ≤ MOST_JOBS }
    requires own { opened.permit.table ≡ arc_value opened.turn }
    ensures same { spawner.new.faults ≡ spawner.old.faults }
    ensures joined { AreJoined spawner.old.jobs spawner.new.jobs jobs.base
        (length jobs.lines.items + length jobs.seats.items) }
{
    let OpenKernel { turn, mut permit } = opened;
    let StartedJobs {
        base,
        mut lines,
        seats,
        ..
    } = jobs;
    turn.turn_stop(rt, &mut permit);
    end_all(&mut lines);
    drop_drives(spawner, base, &lines);
    drop_tasks(spawner, base + lines.len() as u32, &seats);
}
