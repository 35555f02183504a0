// The machine of two files is run.

ghost use Rattle.std.specs.Prelude.{◌≡◌, ◌≢◌, ◌≤◌, ◌+◌, length};
ghost use Rattle.std.specs.Arc.{arc_value};
ghost use Rattle.std.specs.List.{All};
ghost use Rattle.job_ends.specs.Ends.{EndsBy};
ghost use Rattle.motion_history.specs.Drives.{IsDrive};
ghost use Rattle.motion_history.specs.declared.refused.TraceVersion.TheVariants as TraceVersion;
ghost use Rattle.outside.specs.Faults.{Rose};
ghost use Rattle.plc_program.specs.Programs.{IsProgramOf};
ghost use Rattle.run_job.specs.Ends.{EndsByPlant, EndsByRun};
ghost use Rattle.run_job.specs.Joined.{JoinsAll};
ghost use Rattle.run_job.specs.Plans.{no_thread_plan};

use crate::names::RunNames;
use crate::reading::{RunRead, read_plant};
use crate::trace::write_run;
use cia402_machine::statuswords_are_read_back;
use job_ends::{Status, say_all};
use motion_plant::{PlantFault, PlantJob, run_plant};
use outside::{Files, Gate, Host, MOST_JOBS, Sink, Spawner};
use std::alloc::Global;
use std::sync::Wait;

/// Runs the machine that the first file configures with the program of its tasks that the second
/// is: a thread for each drive and each task, and the cycles here. Each turn of a task passes a
/// twin of the gate. Nothing is written before every thread was joined; it waits for the drives,
/// the tasks and the gate, so that it may never return.
pub fn run_files<F: Files, K: Sink, H: Host + Wait, G: Gate + Drop + Send + 'static>(
    rt: &H,
    alloc: Global,
    names: &RunNames<'_>,
    files: &mut F,
    out: &mut K,
    spawner: &mut Spawner<H, PlantJob<G>>,
    gate: &G,
) -> Status
    requires few { length spawner.old.jobs + 24 ≤ MOST_JOBS }
    ensures ends { EndsByRun (F.told files.old) (Rose (F.count files.old) (F.count files.new))
        (Rose spawner.old.faults spawner.new.faults)
        (λ n. length spawner.new.jobs ≡ length spawner.old.jobs + n)
        names.now.config.now names.now.program.now
        (record { count = K.count out.old; told = K.told out.old })
        (record { count = K.count out.new; told = K.told out.new }) result }
    ensures joined { JoinsAll spawner.old.jobs spawner.new.jobs }
{
    // laws
    statuswords_are_read_back();
    match read_plant(alloc, names, files, out) {
        Ok(read) => run_read(rt, alloc, &read, out, spawner, gate),
        Err(status) => status,
    }
}

// Runs a plant, and writes its trace.
fn run_read<K: Sink, H: Host + Wait, G: Gate + Drop + Send + 'static>(
    rt: &H,
    alloc: Global,
    read: &RunRead,
    out: &mut K,
    spawner: &mut Spawner<H, PlantJob<G>>,
    gate: &G,
) -> Status
    requires few { length spawner.old.jobs + 24 ≤ MOST_JOBS }
    requires version { read.now.version ≢ TraceVersion.One }
    requires program { IsProgramOf read.now.plant.config (arc_value read.now.plant.program) }
    requires each { length read.now.plant.drives ≡ length read.now.plant.config.axes }
    requires drives { All IsDrive read.now.plant.drives }
    ensures ends { EndsByPlant read.now.version (Rose spawner.old.faults spawner.new.faults)
        (λ n. length spawner.new.jobs ≡ length spawner.old.jobs + n)
        read.now.plant.config (arc_value read.now.plant.program) read.now.plant.drives
        (record { count = K.count out.old; told = K.told out.old })
        (record { count = K.count out.new; told = K.told out.new }) result }
    ensures joined { JoinsAll spawner.old.jobs spawner.new.jobs }
{
    match run_plant(rt, alloc, &read.plant, spawner, gate) {
        Ok(end) => write_run(alloc, read.version, &end, out),
        Err(PlantFault::ThreadRefused) => say_thread_refused(out),
        Err(PlantFault::OutOfMemory) => Status::OutOfMemory,
    }
}

// Says that a thread was refused.
fn say_thread_refused<K: Sink>(out: &mut K) -> Status
    ensures { EndsBy (record { count = K.count out.old; told = K.told out.old })
        (record { count = K.count out.new; told = K.told out.new }) no_thread_plan result }
{
    say_all(b"thread refused\n", Status::ThreadRefused, out)
}
