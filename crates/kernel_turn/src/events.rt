// What turns make of the kernel: a call, a cycle or an end, where it may be made.

ghost use Rattle.std.specs.Prelude.{◌≡◌, ◌<◌, ◌≤◌, IsSomeAnd, length, slice_get};
ghost use Rattle.motion_history.specs.Calls.{IsCall};
ghost use Rattle.motion_history.specs.Entries.{end_of};
ghost use Rattle.motion_kernel.specs.KernelState.{room_of};
ghost use Rattle.kernel_turn.specs.Events.{CallTold, CycleTold, EndTold, Makes, call_of, cycle_of};

use crate::turn::Turn;
use motion_history::cycles_add_up;
use motion_kernel::{DriveIn, DriveOut, Inputs, Kernel, Outputs};

// How many entries were made, which the kernel has room for.
fn entries_made(kernel: &Kernel) -> u64
    ensures entries { result ≡ length kernel.now.history }
    ensures fits { length kernel.now.history ≤ room_of kernel.now }
{
    kernel.history().entries()
}

// Calls a block where there is room and the history has at least this many cycles.
pub fn try_call(
    kernel: &mut Kernel,
    task: u8,
    after: u32,
    instance: u16,
    inputs: &Inputs,
) -> Turn<Outputs>
    requires task { IsSomeAnd (slice_get kernel.old.config.blocks instance) (λ b. b.task ≡ task) }
    requires call { IsCall kernel.old.config instance inputs.now }
    ensures makes { Makes kernel.old kernel.new (call_of kernel.old instance inputs.now) result }
    ensures told { CallTold after instance inputs.now kernel.old result }
{
    let entries = entries_made(kernel);
    let cycles = kernel.cycles_made();
    if kernel.room_left() == 0 {
        return Turn::Full { entries, cycles };
    }
    if cycles < after {
        let quiet = kernel.quiet_tasks();
        return Turn::Early { quiet, cycles };
    }
    // laws
    cycles_add_up();
    let answer = kernel.call(task, instance, inputs);
    Turn::Made {
        ticket: entries,
        cycles,
        answer,
    }
}

// Goes through a cycle where there is room, no task is quiet and a cycle is left.
pub fn try_cycle(kernel: &mut Kernel, ins: &[DriveIn], outs: &mut [DriveOut]) -> Turn<u8>
    requires ins { length ins.now ≡ length kernel.old.config.axes }
    requires outs { length outs.old ≡ length kernel.old.config.axes }
    ensures makes { Makes kernel.old kernel.new (cycle_of kernel.old ins.now) result }
    ensures told { CycleTold ins.now outs.old outs.new kernel.old kernel.new result }
{
    let entries = entries_made(kernel);
    let cycles = kernel.cycles_made();
    if kernel.room_left() == 0 {
        return Turn::Full { entries, cycles };
    }
    let quiet = kernel.quiet_tasks();
    if quiet > 0 {
        return Turn::Early { quiet, cycles };
    }
    if kernel.cycles_left() == 0 {
        return Turn::Full { entries, cycles };
    }
    // laws
    cycles_add_up();
    kernel.cycle(ins, outs);
    Turn::Made {
        ticket: entries,
        cycles: kernel.cycles_made(),
        answer: kernel.live_tasks(),
    }
}

// Ends a task where there is room.
pub fn try_end(kernel: &mut Kernel, task: u8) -> Turn<()>
    requires task { task < length kernel.old.config.tasks }
    ensures makes { Makes kernel.old kernel.new (end_of task) result }
    ensures told { EndTold kernel.old result }
{
    let entries = entries_made(kernel);
    let cycles = kernel.cycles_made();
    if kernel.room_left() == 0 {
        return Turn::Full { entries, cycles };
    }
    // laws
    cycles_add_up();
    kernel.end(task);
    Turn::Made {
        ticket: entries,
        cycles,
        answer: (),
    }
}
