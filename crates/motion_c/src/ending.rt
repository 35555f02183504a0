// Ends of tasks.

ghost use Rattle.std.specs.Prelude.{◌≡◌, ◌≢◌, ◌↔◌, Some, None};
ghost use Rattle.motion_c.specs.Ends.{TellsEnd};
ghost use Rattle.lasting_kernel.specs.Lasting.{with_entry};
ghost use Rattle.motion_c.specs.Held.{held};
ghost use Rattle.motion_c.specs.declared.machine.Machine.{Machine};
ghost use Rattle.motion_history.specs.Entries.{end_of};

use crate::code::{CLOSED, FULL, OK, UNKNOWN};
use crate::motion::{Motion, put, take};
use lasting_kernel::LastingKernel;
use std::alloc::Global;

/// Ends a task, by its number.
#[unsafe(no_mangle)]
pub extern "C" fn motion_end(alloc: Global, motion: &mut Motion, task: u8) -> u32
    ensures closed { (result ≡ 1) ↔ (held motion.old ≡ None) }
    ensures code { (m : Machine) → held motion.old ≡ Some m → TellsEnd m.kernel.kernel task result }
    ensures made { (m : Machine) → held motion.old ≡ Some m → result ≡ 0 →
        held motion.new ≡ Some (record m { kernel = with_entry m.kernel (end_of task) }) }
    ensures kept { result ≢ 0 → held motion.new ≡ held motion.old }
{
    let Some(mut machine) = take(alloc, motion) else {
        return CLOSED;
    };
    let answer = end(&mut machine.kernel, task);
    put(motion, machine);
    answer
}

// Ends a task where it may be.
fn end(kernel: &mut LastingKernel, task: u8) -> u32
    ensures code { TellsEnd kernel.old.kernel task result }
    ensures open { result ≢ 1 }
    ensures made { result ≡ 0 → kernel.new ≡ with_entry kernel.old (end_of task) }
    ensures kept { result ≢ 0 → kernel.new ≡ kernel.old }
{
    if task as usize >= kernel.segment().config().tasks().len() {
        return UNKNOWN;
    }
    if kernel.segment().room_left() == 0 {
        return FULL;
    }
    kernel.end(task);
    OK
}
