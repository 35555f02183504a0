// The machine of a job in Structured Text.

ghost use Rattle.std.specs.Prelude.{◌≡◌, IfErr, IfOk, OnOk};
ghost use Rattle.machine_config.specs.Machines.{IsMachine};
ghost use Rattle.outside.specs.Faults.{Rose};
ghost use Rattle.st_job.specs.Machines.{GivesMachine, NoMachine};

use job_ends::{Status, read_machine, say_refused};
use machine_config::Machine;
use motion_history::{Rule, TextRefused};
use outside::{Files, Sink};
use std::alloc::Global;

// How a configuration of version 3 is refused: its version is out of range.
const LATER: TextRefused = TextRefused {
    place: 0,
    rule: Rule {
        letter: b'C',
        number: 5,
    },
};

/// The machine that the first file configures, which is one before version 3: Structured Text of
/// version 3 isn't read yet. Else says why there is none, and answers how the job ends.
pub fn read_st_machine<F: Files, K: Sink>(
    alloc: Global,
    name: &str,
    files: &mut F,
    out: &mut K,
) -> Result<Machine, Status>
    ensures machine { IfOk result (GivesMachine (F.told files.old) name.now) }
    ensures kinds { IfOk result IsMachine }
    ensures none { IfErr result (NoMachine (F.told files.old)
        (Rose (F.count files.old) (F.count files.new)) name.now
        (record { count = K.count out.old; told = K.told out.old })
        (record { count = K.count out.new; told = K.told out.new })) }
    ensures silent { OnOk result (out.new ≡ out.old) }
    ensures told { F.told files.new ≡ F.told files.old }
    ensures kept { OnOk result (F.count files.new ≡ F.count files.old) }
{
    match read_machine(alloc, name, files, out) {
        Ok(machine) => {
            if machine.version.number() < 3 {
                Ok(machine)
            } else {
                Err(say_refused(alloc, 1, name, &LATER, out))
            }
        }
        Err(status) => Err(status),
    }
}
