// From the start of all jobs to the close of the kernel's turns.

ghost use Rattle.std.specs.Prelude.{◌≡◌, ◌≤◌, ◌+◌, [], List, Some, false, length, map, slice_get, true, vec_capacity, vec_len};
ghost use Rattle.std.specs.Arc.{arc_value};
ghost use Rattle.drive_jobs.specs.DriveLinkState.{DriveLinkState};
ghost use Rattle.kernel_turn.specs.PermitState.{PermitState};
ghost use Rattle.motion_history.specs.declared.sizes.TheConstants.{MOST_CYCLES};
ghost use Rattle.motion_plant.specs.Cycling.{IsCycled};
ghost use Rattle.motion_plant.specs.Jobs.{AreDrivesAt, AreJoined, AreTasksAt};
ghost use Rattle.motion_plant.specs.Joined.{IsSeated, IsStopped};
ghost use Rattle.motion_plant.specs.Lines.{IsInStep, ended_line};
ghost use Rattle.motion_plant.specs.Places.{Each};
ghost use Rattle.motion_plant.specs.Ran.{PlantMeets};
ghost use Rattle.outside.specs.declared.TheConstants.{MOST_JOBS};

use crate::cycles::{Ending, run_cycles};
use crate::joins::{finish_drives, finish_tasks};
use crate::plant_job::PlantJob;
use crate::rooms::{CycleRoom, OpenKernel, StartedJobs};
use drive_jobs::DriveLink;
use kernel_turn::{Kernel, KernelTurn, Permit};
use motion_laws::histories_keep_the_headline;
use outside::{Gate, Host, Spawner};
use setpoint_ring::DriveLog;
use std::sync::Wait;

/// The kernel at the end of a run, and what each drive took, in the order of the axes.
#[derive(Drop)]
pub struct PlantEnd {
    pub kernel: Kernel,
    pub drives: Vec<DriveLog>,
}

// Stops the kernel where no cycle is left, so that no task waits for one.
fn stop_if_over<R: Wait>(rt: &R, turn: &KernelTurn, permit: &mut Permit, ending: Ending)
    requires own { permit.old.table ≡ turn.now }
    ensures stopped { (first : PermitState) → (ls : List DriveLinkState) → (lines : List DriveLinkState) →
        IsCycled first ls permit.old lines ending → IsStopped first ls permit.new lines ending }
    ensures own { permit.new.table ≡ permit.old.table }
{
    match ending {
        Ending::Over => turn.turn_stop(rt, permit),
        Ending::Done => {}
        Ending::Full => {}
    }
}

/// Reports each drive that no output comes any more.
pub fn end_all(lines: &mut Vec<DriveLink>)
    ensures ended { lines.new.items ≡ map ended_line lines.old.items }
{
    for i in 0..lines.len() {
        lines[i].end();
    }
}

/// Makes the cycles once all jobs were started from a number on, joins all and closes the turns.
pub fn run_started<H: Host + Wait, G: Gate + Drop + Send + 'static>(
    rt: &H,
    spawner: &mut Spawner<H, PlantJob<G>>,
    opened: OpenKernel,
    jobs: StartedJobs<G>,
    room: CycleRoom,
) -> PlantEnd
    requires started { AreDrivesAt spawner.old.jobs jobs.base jobs.lines.items ×
        AreTasksAt spawner.old.jobs (jobs.base + length jobs.lines.items) jobs.seats.items }
    requires few { (jobs.base + length jobs.lines.items + length jobs.seats.items ≤ MOST_JOBS) ×
        (opened.permit.config.cycles ≤ MOST_CYCLES) }
    requires own { (opened.permit.table ≡ arc_value opened.turn) × (opened.permit.opening ≡ true) ×
        (opened.permit.own ≡ []) × (opened.permit.out ≡ length jobs.seats.items) ×
        (opened.permit.made_stop ≡ false) }
    requires seats { Each (IsSeated (arc_value opened.turn) opened.permit.config) jobs.seats.items }
    requires fresh { Each (IsInStep []) jobs.lines.items }
    requires width { (length jobs.lines.items ≡ length opened.permit.config.axes) ×
        (vec_len room.ins ≡ length opened.permit.config.axes) ×
        (vec_len room.outs ≡ length opened.permit.config.axes) }
    requires room { (room.made ≡ 0) × (room.most ≡ opened.permit.config.cycles) ×
        (jobs.logs.items ≡ []) × (length jobs.lines.items ≤ vec_capacity jobs.logs) }
    ensures meets { PlantMeets opened.permit.config jobs.lines.items jobs.seats.items
        result.kernel.history result.drives.items }
    ensures config { result.kernel.config ≡ opened.permit.config }
    ensures logs { length result.drives.items ≡ length jobs.lines.items }
    ensures same { (spawner.new.faults ≡ spawner.old.faults) ×
        (length spawner.new.jobs ≡ length spawner.old.jobs) }
    ensures gone { AreJoined spawner.old.jobs spawner.new.jobs jobs.base
        (length jobs.lines.items + length jobs.seats.items) }
{
    let OpenKernel { turn, mut permit } = opened;
    let StartedJobs {
        base,
        mut lines,
        seats,
        mut logs,
    } = jobs;
    let mut room = room;
    let ending = run_cycles(rt, &turn, &mut permit, &mut lines, &mut room);
    stop_if_over(rt, &turn, &mut permit, ending);
    end_all(&mut lines);
    let drives = lines.len() as u32;
    finish_drives(spawner, base, &mut lines, &mut logs);
    finish_tasks(spawner, base + drives, &turn, &mut permit, &seats);
    let kernel = turn.close(rt, permit);
    // laws
    histories_keep_the_headline();
    kernel.history();
    PlantEnd {
        kernel,
        drives: logs,
    }
}
