// A machine and the program of its tasks are read from two files.

ghost use Rattle.std.specs.Prelude.{◌≡◌, IfErr, IfOk, OnOk};
ghost use Rattle.machine_config.specs.Machines.{IsMachine};
ghost use Rattle.outside.specs.Faults.{Rose};
ghost use Rattle.st_job.specs.Given.{ControllerBy, GivesController, GivesProgram, NoController, NoProgram};

use crate::machine::read_st_machine;
use job_ends::{MOST_BYTES, Status, read_text, say_refused, whole};
use machine_config::Machine;
use motion_history::TextFault;
use outside::{Files, Sink};
use st_build::read_st;
use st_exec::{compile, scans_call_the_machine};
use st_rounds::Controller;
use std::alloc::Global;

/// The controller that the two files give: the configuration is read and refused before the program
/// is read. Else says why there is none, and answers how the job ends.
pub fn read_controller<F: Files, K: Sink>(
    alloc: Global,
    config_name: &str,
    program_name: &str,
    files: &mut F,
    out: &mut K,
) -> Result<Controller, Status>
    ensures controller { IfOk result (GivesController (F.told files.old) config_name.now
        program_name.now) }
    ensures none { IfErr result (NoController (F.told files.old)
        (Rose (F.count files.old) (F.count files.new)) config_name.now program_name.now
        (record { count = K.count out.old; told = K.told out.old })
        (record { count = K.count out.new; told = K.told out.new })) }
    ensures silent { OnOk result (out.new ≡ out.old) }
{
    let machine = read_st_machine(alloc, config_name, files, out)?;
    read_tasks(alloc, program_name, machine, files, out)
}

// The controller of a machine and the program that the second file is.
fn read_tasks<F: Files, K: Sink>(
    alloc: Global,
    name: &str,
    machine: Machine,
    files: &mut F,
    out: &mut K,
) -> Result<Controller, Status>
    requires machine { IsMachine machine }
    ensures controller { IfOk result (GivesProgram (F.told files.old) name.now machine) }
    ensures none { IfErr result (NoProgram (F.told files.old)
        (Rose (F.count files.old) (F.count files.new)) name.now machine
        (record { count = K.count out.old; told = K.told out.old })
        (record { count = K.count out.new; told = K.told out.new })) }
    ensures silent { OnOk result (out.new ≡ out.old) }
{
    let text = read_text(alloc, 2, name, MOST_BYTES, files, out)?;
    match controller_of(alloc, machine, text.as_slice()) {
        Ok(controller) => Ok(controller),
        Err(TextFault::Refused(refused)) => Err(say_refused(alloc, 2, name, &refused, out)),
        Err(TextFault::OutOfMemory) => Err(Status::OutOfMemory),
    }
}

// The controller of a machine and the program that a text is.
fn controller_of(alloc: Global, machine: Machine, text: &[u8]) -> Result<Controller, TextFault>
    requires machine { IsMachine machine }
    ensures { ControllerBy machine text.now result }
{
    let Machine {
        mut config,
        cycle_us,
        drives,
        ..
    } = machine;
    // laws
    scans_call_the_machine();
    let program = read_st(alloc, text, &mut config)?;
    let Ok(code) = compile(alloc, &program, cycle_us) else {
        return Err(TextFault::OutOfMemory);
    };
    Ok(Controller {
        config: whole(config),
        drives,
        program,
        code,
    })
}
