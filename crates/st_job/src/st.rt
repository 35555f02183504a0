// The machine of two files is run with its tasks.

ghost use Rattle.std.specs.Prelude.{◌≡◌};
ghost use Rattle.outside.specs.Faults.{Rose};
ghost use Rattle.st_job.specs.Ends.{EndsBySt};

use crate::reading::read_controller;
use crate::trace::run_cell;
use job_ends::Status;
use outside::{Files, Sink};
use st_rounds::{rounds_are_in_step, tasks_make_their_scans};
use std::alloc::Global;

/// Runs the machine that the first file configures with the tasks that the second is in Structured
/// Text: by rounds, in each of which every task that lives makes one scan, and then a cycle is
/// made. Nothing is written before the run has ended.
pub fn st_files<F: Files, K: Sink>(
    alloc: Global,
    config_name: &str,
    program_name: &str,
    files: &mut F,
    out: &mut K,
) -> Status
    ensures { EndsBySt (F.told files.old) (Rose (F.count files.old) (F.count files.new))
        config_name.now program_name.now
        (record { count = K.count out.old; told = K.told out.old })
        (record { count = K.count out.new; told = K.told out.new }) result }
{
    // laws
    rounds_are_in_step();
    tasks_make_their_scans();
    match read_controller(alloc, config_name, program_name, files, out) {
        Ok(cell) => run_cell(alloc, &cell, out),
        Err(status) => status,
    }
}
