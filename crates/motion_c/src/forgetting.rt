// Histories that nobody wants.

ghost use Rattle.std.specs.Prelude.{◌≡◌, ◌≢◌, ◌↔◌, Some, None};
ghost use Rattle.lasting_kernel.specs.Lasting.{after_hand_over};
ghost use Rattle.motion_c.specs.Held.{held};
ghost use Rattle.motion_c.specs.Swaps.{TellsForget};
ghost use Rattle.motion_c.specs.declared.machine.Machine.{Machine};

use crate::code::{CLOSED, OK, OVER};
use crate::motion::{Motion, put, take};
use lasting_kernel::LastingKernel;
use std::alloc::Global;

/// Empties the history of a machine, which goes on: what a swap does, with the history given to
/// nobody. What was made before is still the machine's past. It takes no memory, and as long
/// whatever the history holds. The handle keeps its trace.
#[unsafe(no_mangle)]
pub extern "C" fn motion_forget(alloc: Global, motion: &mut Motion) -> u32
    ensures closed { (result ≡ 1) ↔ (held motion.old ≡ None) }
    ensures code { (m : Machine) → held motion.old ≡ Some m → TellsForget m.kernel.kernel result }
    ensures forgotten { (m : Machine) → held motion.old ≡ Some m → result ≡ 0 →
        held motion.new ≡ Some (record m { kernel = after_hand_over m.kernel }) }
    ensures kept { result ≢ 0 → held motion.new ≡ held motion.old }
{
    let Some(mut machine) = take(alloc, motion) else {
        return CLOSED;
    };
    let answer = forget(&mut machine.kernel);
    put(motion, machine);
    answer
}

// Empties the history of a kernel where that can be counted.
fn forget(kernel: &mut LastingKernel) -> u32
    ensures code { TellsForget kernel.old.kernel result }
    ensures open { result ≢ 1 }
    ensures forgotten { result ≡ 0 → kernel.new ≡ after_hand_over kernel.old }
    ensures kept { result ≢ 0 → kernel.new ≡ kernel.old }
{
    if !kernel.segment().before().is_early() {
        return OVER;
    }
    kernel.forget();
    OK
}
