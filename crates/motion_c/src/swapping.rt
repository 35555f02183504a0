// Segments handed over from one handle to another.

ghost use Rattle.std.specs.Prelude.{◌≡◌, ◌≢◌, ◌↔◌, Some, None};
ghost use Rattle.lasting_kernel.specs.Lasting.{after_hand_over};
ghost use Rattle.motion_c.specs.Held.{held};
ghost use Rattle.motion_c.specs.Swaps.{IsSwapped, TellsSwap, both_of};
ghost use Rattle.motion_c.specs.declared.machine.Machine.{Machine};

use crate::code::{CLOSED, OK, OTHER, OVER};
use crate::motion::{Motion, put, take};
use crate::sameness::is_one_configuration;
use lasting_kernel::LastingKernel;
use std::alloc::Global;

/// Hands the segment of a machine over to a spare one of the same configuration, which then is what
/// the machine was, and the machine goes on with an empty segment. What the spare one was is gone.
/// It takes no memory, and as long whatever the segments hold. Each handle keeps its trace.
#[unsafe(no_mangle)]
pub extern "C" fn motion_swap(alloc: Global, motion: &mut Motion, spare: &mut Motion) -> u32
    ensures closed { (result ≡ 1) ↔ (both_of (held motion.old) (held spare.old) ≡ None) }
    ensures code { (m s : Machine) → held motion.old ≡ Some m → held spare.old ≡ Some s →
        TellsSwap m.kernel.kernel s.kernel.kernel result }
    ensures swapped { (m s : Machine) → held motion.old ≡ Some m → held spare.old ≡ Some s →
        result ≡ 0 → IsSwapped m s (held motion.new) (held spare.new) }
    ensures kept { result ≢ 0 → held motion.new ≡ held motion.old }
    ensures spare_kept { result ≢ 0 → held spare.new ≡ held spare.old }
{
    let Some(mut machine) = take(alloc, motion) else {
        return CLOSED;
    };
    let Some(mut other) = take(alloc, spare) else {
        put(motion, machine);
        return CLOSED;
    };
    let answer = swap(&mut machine.kernel, &mut other.kernel);
    put(motion, machine);
    put(spare, other);
    answer
}

// Hands the segment of a kernel over to another one where it may.
fn swap(kernel: &mut LastingKernel, other: &mut LastingKernel) -> u32
    ensures code { TellsSwap kernel.old.kernel other.old.kernel result }
    ensures open { result ≢ 1 }
    ensures kernel { result ≡ 0 → kernel.new ≡ after_hand_over kernel.old }
    ensures other { result ≡ 0 → other.new ≡ kernel.old }
    ensures kept { result ≢ 0 → kernel.new ≡ kernel.old }
    ensures other_kept { result ≢ 0 → other.new ≡ other.old }
{
    if !is_one_configuration(kernel.segment().config(), other.segment().config()) {
        return OTHER;
    }
    if !kernel.segment().before().is_early() {
        return OVER;
    }
    kernel.hand_over(other);
    OK
}
