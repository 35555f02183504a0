// Cycles.

ghost use Rattle.std.specs.Prelude.{◌≡◌, ◌≢◌, ◌↔◌, Some, None, length};
ghost use Rattle.motion_c.specs.Cycles.{AreEach, HasCycle, TellsCycle, after_cycle, outputs_after};
ghost use Rattle.motion_c.specs.Held.{held};
ghost use Rattle.motion_c.specs.Room.{HasRoom};
ghost use Rattle.motion_c.specs.declared.machine.Machine.{Machine};

use crate::code::{CLOSED, FULL, LENGTH, OK, OVER};
use crate::motion::{Motion, put, take};
use lasting_kernel::LastingKernel;
use plc_types::{DriveIn, DriveOut};
use std::alloc::Global;

/// Goes through a cycle with the drives' answers, and gives each drive its output.
#[unsafe(no_mangle)]
pub extern "C" fn motion_cycle(
    alloc: Global,
    motion: &mut Motion,
    answers: &[DriveIn],
    outputs: &mut [DriveOut],
) -> u32
    ensures closed { (result ≡ 1) ↔ (held motion.old ≡ None) }
    ensures code { (m : Machine) → held motion.old ≡ Some m →
        TellsCycle m.kernel.kernel (length answers.now) (length outputs.old) result }
    ensures made { (m : Machine) → held motion.old ≡ Some m → result ≡ 0 →
        held motion.new ≡ Some (record m { kernel = after_cycle m.kernel answers.now }) }
    ensures outputs { (m : Machine) → held motion.old ≡ Some m → result ≡ 0 →
        outputs.new ≡ outputs_after m.kernel.kernel answers.now }
    ensures kept { result ≢ 0 → held motion.new ≡ held motion.old }
    ensures same { result ≢ 0 → outputs.new ≡ outputs.old }
{
    let Some(mut machine) = take(alloc, motion) else {
        return CLOSED;
    };
    let answer = cycle(&mut machine.kernel, answers, outputs);
    put(motion, machine);
    answer
}

// Goes through a cycle where it may.
fn cycle(kernel: &mut LastingKernel, answers: &[DriveIn], outputs: &mut [DriveOut]) -> u32
    ensures code { TellsCycle kernel.old.kernel (length answers.now) (length outputs.old) result }
    ensures open { result ≢ 1 }
    ensures made { result ≡ 0 → kernel.new ≡ after_cycle kernel.old answers.now }
    ensures outputs { result ≡ 0 → outputs.new ≡ outputs_after kernel.old.kernel answers.now }
    ensures kept { result ≢ 0 → kernel.new ≡ kernel.old }
    ensures same { result ≢ 0 → outputs.new ≡ outputs.old }
{
    let axes = kernel.segment().config().axes().len();
    if answers.len() != axes || outputs.len() != axes {
        return LENGTH;
    }
    if kernel.segment().cycles_left() == 0 {
        return OVER;
    }
    if kernel.segment().room_left() == 0 {
        return FULL;
    }
    kernel.cycle(answers, outputs);
    OK
}
