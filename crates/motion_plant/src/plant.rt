// The run of a plant.

ghost use Rattle.std.specs.Prelude.{◌≡◌, ◌≤◌, ◌+◌, ◌++◌, ℕ, IfErr, IfOk, None, OnOk, length, replicate};
ghost use Rattle.std.specs.Arc.{arc_value};
ghost use Rattle.std.specs.List.{All};
ghost use Rattle.kernel_turn.specs.Turns.{opening_permit};
ghost use Rattle.machine_drives.specs.Drives.{drives_at_opening};
ghost use Rattle.motion_history.specs.Drives.{IsDrive};
ghost use Rattle.motion_plant.specs.Ran.{PlantRan};
ghost use Rattle.motion_plant.specs.declared.fault.PlantFault.TheVariants.{OutOfMemory, ThreadRefused};
ghost use Rattle.outside.specs.Faults.{Rose};
ghost use Rattle.plc_program.specs.Programs.{IsProgramOf};

use crate::fault::PlantFault;
use crate::finish::{PlantEnd, run_started};
use crate::give_up::give_up;
use crate::plant_job::PlantJob;
use crate::rooms::{OpenKernel, make_cycle_room, make_room};
use crate::starts::{Shared, start_drives, start_tasks};
use kernel_turn::{Kernel, KernelTurn};
use motion_history::{Config, DriveDefs};
use outside::{Gate, Host, MOST_JOBS, Spawner};
use plc_program::Program;
use std::alloc::Global;
use std::sync::{Arc, Wait};

/// A machine, the program of its tasks, and the drives of its axes.
#[derive(Drop)]
pub struct Plant {
    pub config: Config,
    pub program: Arc<Program>,
    pub drives: DriveDefs,
}

// Opens a kernel and its turns.
fn open_turn(alloc: Global, config: &Config) -> Result<OpenKernel, PlantFault>
    ensures first { IfOk result (λ r. r.permit ≡ opening_permit (arc_value r.turn) config.now) }
    ensures memory { IfErr result (λ e. e ≡ PlantFault.OutOfMemory) }
{
    let Ok(config) = config.copy(alloc) else {
        return Err(PlantFault::OutOfMemory);
    };
    let Ok(kernel) = Kernel::open(alloc, config) else {
        return Err(PlantFault::OutOfMemory);
    };
    let Ok((turn, permit)) = KernelTurn::open(alloc, kernel) else {
        return Err(PlantFault::OutOfMemory);
    };
    let Ok(turn) = Arc::new(alloc, turn) else {
        return Err(PlantFault::OutOfMemory);
    };
    Ok(OpenKernel { turn, permit })
}

/// Runs a plant: a thread for each drive and each task, and the cycles here. Each turn of a task
/// passes a twin of the gate. It returns once every thread was joined, also where one was refused
/// or memory was wanting; and it waits for the drives, the tasks and the gate, so that it may never
/// return.
pub fn run_plant<H: Host + Wait, G: Gate + Drop + Send + 'static>(
    rt: &H,
    alloc: Global,
    setup: &Plant,
    spawner: &mut Spawner<H, PlantJob<G>>,
    gate: &G,
) -> Result<PlantEnd, PlantFault>
    requires few { length spawner.old.jobs + 24 ≤ MOST_JOBS }
    requires program { IsProgramOf setup.now.config (arc_value setup.now.program) }
    requires each { length setup.now.drives ≡ length setup.now.config.axes }
    requires drives { All IsDrive setup.now.drives }
    ensures config { IfOk result (λ e. e.kernel.config ≡ setup.now.config) }
    ensures ran { IfOk result (λ e. PlantRan setup.now.config (arc_value setup.now.program)
        (drives_at_opening setup.now.config.axes setup.now.drives)
        e.kernel.history e.drives.items) }
    ensures started { OnOk result (length spawner.new.jobs ≡ length spawner.old.jobs +
        length setup.now.config.axes + length setup.now.config.tasks) }
    ensures refused { IfErr result (λ e. e ≡ ThreadRefused →
        Rose spawner.old.faults spawner.new.faults) }
    ensures memory { IfErr result (λ e. e ≡ OutOfMemory →
        spawner.new.faults ≡ spawner.old.faults) }
    ensures joined { (k : ℕ) × (spawner.new.jobs ≡ spawner.old.jobs ++ replicate k None) }
{
    let axes = setup.config.axes();
    let tasks = setup.program.tasks() as usize;
    let Ok(mut jobs) = make_room(alloc, spawner.started(), axes.len(), tasks) else {
        return Err(PlantFault::OutOfMemory);
    };
    let Ok(room) = make_cycle_room(alloc, axes.len(), setup.config.cycles()) else {
        return Err(PlantFault::OutOfMemory);
    };
    let mut opened = open_turn(alloc, &setup.config)?;
    let defs = setup.drives.as_slice();
    if let Err(fault) = start_drives(spawner, alloc, axes, defs, &mut jobs.lines) {
        give_up(rt, spawner, opened, jobs);
        return Err(fault);
    }
    let shared = Shared {
        turn: &opened.turn,
        program: &setup.program,
        gate,
    };
    if let Err(fault) = start_tasks(spawner, &shared, &mut opened.permit, &mut jobs.seats) {
        give_up(rt, spawner, opened, jobs);
        return Err(fault);
    }
    Ok(run_started(rt, spawner, opened, jobs, room))
}
