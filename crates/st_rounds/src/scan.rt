// A scan of a task on a kernel.

ghost use Rattle.std.specs.Prelude.{◌≡◌, false, List, OnOk, Ok, Some, slice_get, true};
ghost use Rattle.bench_run.specs.Going.{run_at};
ghost use Rattle.drive_sim.specs.Sim.{DriveSim};
ghost use Rattle.st_tree.specs.declared.program.Task.{Task};
ghost use Rattle.st_rounds.specs.Controllers.{cell_of};
ghost use Rattle.st_rounds.specs.Playing.{HasScanned, IsBetween, stand_at};
ghost use Rattle.st_rounds.specs.Ready.{AreReady};
ghost use Rattle.st_rounds.specs.Rounds as spec;

use crate::cell::Controller;
use bench_run::{RunFault, make_call, make_end};
use hot_standby::PrimaryKernel;
use st_exec::{StNext, StTask};

/// A scan of the task of this number, which lives: its calls, each with the kernel's reply, and its
/// end where this was its last scan. Says whether it lives on.
pub fn make_scan(
    kernel: &mut PrimaryKernel,
    cell: &Controller,
    number: u8,
    task: &mut StTask,
) -> Result<bool, RunFault>
    requires runs { kernel.old.kernel.stopped ≡ false }
    requires config { kernel.old.kernel.config ≡ cell.now.config }
    requires ready { AreReady cell.now.config cell.now.code.us cell.now.program.tasks.items }
    requires task { IsBetween cell.now.code number task.old }
    ensures config { kernel.new.kernel.config ≡ kernel.old.kernel.config }
    ensures runs { kernel.new.kernel.stopped ≡ false }
    ensures made { (t : Task) → slice_get cell.now.program.tasks.items number ≡ Some t →
        (drives : List DriveSim) → HasScanned
        (spec.scan (cell_of cell.now) number t (stand_at task.old true)
        (run_at kernel.old.kernel drives (Ok tt)))
        kernel.new.kernel drives result task.new }
    ensures task { OnOk result (IsBetween cell.now.code number task.new) }
{
    loop {
        match task.next(&cell.code) {
            StNext::Call { instance, inputs } => {
                let reply = make_call(kernel, instance, &inputs)?;
                task.answered(&reply);
            }
            StNext::ScanDone => return Ok(true),
            StNext::End => {
                make_end(kernel, number)?;
                return Ok(false);
            }
        }
    }
}
