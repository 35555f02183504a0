// The machine of a job over two files, which the first file configures.

ghost use Rattle.std.specs.Prelude.{◌≡◌, IfErr, IfOk, OnOk};
ghost use Rattle.job_ends.specs.Machines.{GivesMachine, NoMachine};
ghost use Rattle.machine_config.specs.Machines.{IsMachine};
ghost use Rattle.motion_history.specs.Setup.{IsSetup};
ghost use Rattle.outside.specs.Faults.{Rose};

use crate::files::read_text;
use crate::saying::say_refused;
use crate::status::Status;
use machine_config::{Machine, read_config};
use motion_history::{Builder, Config, TextFault};
use outside::{Files, Sink};
use std::alloc::Global;

/// The most bytes of a configuration or a program: 16 MiB.
pub const MOST_BYTES: u64 = 16_777_216;

/// The machine that the first file configures. Else says why there is none, and answers how the job
/// ends.
pub fn read_machine<F: Files, K: Sink>(
    alloc: Global,
    name: &str,
    files: &mut F,
    out: &mut K,
) -> Result<Machine, Status>
    ensures machine { IfOk result (GivesMachine (F.told files.old) name.now) }
    ensures kinds { IfOk result IsMachine }
    ensures none { IfErr result (NoMachine (F.told files.old)
        (Rose (F.count files.old) (F.count files.new)) name.now
        (record { count = K.count out.old; told = K.told out.old })
        (record { count = K.count out.new; told = K.told out.new })) }
    ensures silent { OnOk result (out.new ≡ out.old) }
    ensures told { F.told files.new ≡ F.told files.old }
    ensures kept { OnOk result (F.count files.new ≡ F.count files.old) }
{
    let text = read_text(alloc, 1, name, MOST_BYTES, files, out)?;
    match read_config(alloc, text.as_slice()) {
        Ok(machine) => Ok(machine),
        Err(TextFault::Refused(refused)) => Err(say_refused(alloc, 1, name, &refused, out)),
        Err(TextFault::OutOfMemory) => Err(Status::OutOfMemory),
    }
}

/// A configuration that is whole.
pub fn whole(machine: Builder) -> Config
    requires { IsSetup machine }
    ensures { result ≡ machine }
{
    match machine.finish() {
        Ok(config) => config,
        Err(_) => unreachable!(),
    }
}
