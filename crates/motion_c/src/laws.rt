// The invariant of the history after a handle.

ghost use Rattle.std.specs.Prelude.{◌≡◌, Some};
ghost use Rattle.lasting_kernel.specs.Lasting.{HasPast, whole_of};
ghost use Rattle.motion_c.specs.Held.{held};
ghost use Rattle.motion_c.specs.declared.machine.Machine.{Machine};
ghost use Rattle.motion_kernel.specs.Histories.{IsLegalFrom};
ghost use Rattle.motion_laws.specs.Laws.{KeepsLaws};

use crate::machine::Machine;
use crate::motion::{Motion, put, take};
use std::alloc::Global;

/// After any calls, whatever they answered, what the machine after a handle made from opening on
/// keeps all laws of the machine, also what it made in segments that were given out: these lead to
/// the machine with which its segment begins, and from there on the segment is a legal history.
/// Nothing but the handle's machine is looked at, and it stays as it is.
pub fn held_histories_keep_their_laws(alloc: Global, motion: &mut Motion)
    ensures past { (m : Machine) → held motion.old ≡ Some m → HasPast m.kernel }
    ensures legal { (m : Machine) → held motion.old ≡ Some m →
        IsLegalFrom m.kernel.kernel.config m.kernel.kernel.start m.kernel.kernel.history }
    ensures laws { (m : Machine) → held motion.old ≡ Some m →
        KeepsLaws m.kernel.kernel.config (whole_of m.kernel) }
    ensures kept { held motion.new ≡ held motion.old }
{
    if let Some(machine) = take(alloc, motion) {
        // laws
        machines_keep_their_laws(&machine);
        put(motion, machine);
    }
}

// What a machine made keeps all laws of the machine, and its segment is legal from where it begins.
fn machines_keep_their_laws(machine: &Machine)
    ensures past { HasPast machine.now.kernel }
    ensures legal { IsLegalFrom machine.now.kernel.kernel.config machine.now.kernel.kernel.start
        machine.now.kernel.kernel.history }
    ensures laws { KeepsLaws machine.now.kernel.kernel.config (whole_of machine.now.kernel) }
{
    machine.kernel.keeps_laws();
    let _ = machine.kernel.segment().history();
}
