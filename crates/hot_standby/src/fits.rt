// Whether an event fits a kernel: whether it keeps the conditions of the kernel's call.

ghost use Rattle.std.specs.Prelude.{◌≡◌, ◌↔◌, IsTrue, IsSomeAnd, slice_get};
ghost use Rattle.hot_standby.specs.Events.{IsFit, MayBeMade};
ghost use Rattle.motion_history.specs.Calls.{IsCall};

use crate::event::FedEvent;
use motion_kernel::Kernel;
use plc_types::Inputs;

// Whether an event fits a kernel.
pub(crate) fn fits(kernel: &Kernel, event: &FedEvent) -> bool
    ensures { IsTrue result ↔ IsFit kernel.now event.now }
{
    kernel.room_left() > 0 && may_be_made(kernel, event)
}

// Whether an event may be made on a kernel that has room.
fn may_be_made(kernel: &Kernel, event: &FedEvent) -> bool
    ensures { IsTrue result ↔ MayBeMade kernel.now event.now }
{
    match event {
        FedEvent::Call {
            task,
            instance,
            inputs,
        } => is_call_of(kernel, *task, *instance, inputs),
        FedEvent::Cycle { count, .. } => {
            kernel.cycles_left() > 0 && *count as usize == kernel.config().axes().len()
        }
        FedEvent::End { task } => (*task as usize) < kernel.config().tasks().len(),
    }
}

// Whether a block is this task's, and may be called with these inputs.
fn is_call_of(kernel: &Kernel, task: u8, instance: u16, inputs: &Inputs) -> bool
    ensures { IsTrue result ↔ (IsSomeAnd (slice_get kernel.now.config.blocks instance)
        (λ b. b.task ≡ task) × IsCall kernel.now.config instance inputs.now) }
{
    let config = kernel.config();
    match config.blocks().get(instance as usize) {
        Some(block) => block.task == task && config.may_be_called(instance, inputs),
        None => false,
    }
}
