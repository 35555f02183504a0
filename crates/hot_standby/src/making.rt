// An event is made on a kernel.

ghost use Rattle.std.specs.Prelude.{◌≡◌, IsTrue, IsFalse};
ghost use Rattle.hot_standby.specs.Events.{IsFit, kernel_after};

use crate::event::FedEvent;
use crate::fits::fits;
use motion_history::MOST_AXES;
use motion_kernel::Kernel;
use plc_types::{DriveIn, NO_OUTPUT};

// Makes an event, where it fits the kernel.
pub(crate) fn try_make(kernel: &mut Kernel, event: &FedEvent) -> bool
    ensures fit { IsTrue result →
        IsFit kernel.old event.now × (kernel.new ≡ kernel_after kernel.old event.now) }
    ensures stranger { IsFalse result →
        (IsFit kernel.old event.now → ⊥) × (kernel.new ≡ kernel.old) }
{
    if !fits(kernel, event) {
        return false;
    }
    make(kernel, event);
    true
}

// Makes an event that fits the kernel.
fn make(kernel: &mut Kernel, event: &FedEvent)
    requires { IsFit kernel.old event.now }
    ensures { kernel.new ≡ kernel_after kernel.old event.now }
{
    match event {
        FedEvent::Call {
            task,
            instance,
            inputs,
        } => {
            kernel.call(*task, *instance, inputs);
        }
        FedEvent::Cycle { count, ins } => make_cycle(kernel, *count, ins),
        FedEvent::End { task } => kernel.end(*task),
    }
}

// Makes a cycle that fits the kernel. Its outputs go to no drive.
fn make_cycle(kernel: &mut Kernel, count: u8, ins: &[DriveIn; 16])
    requires { IsFit kernel.old (FedEvent.Cycle count ins.now) }
    ensures { kernel.new ≡ kernel_after kernel.old (FedEvent.Cycle count ins.now) }
{
    let mut outs = [NO_OUTPUT; MOST_AXES];
    // a sound configuration has at most sixteen axes
    let _ = kernel.config().axes();
    let count = count as usize;
    kernel.cycle(&ins[..count], &mut outs[..count]);
}
