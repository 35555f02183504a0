// A full history: how a caller finds out that no entry or no cycle is left, and goes on.

ghost use Rattle.std.specs.Prelude.{◌≡◌, ◌≢◌, ◌↔◌, ◌≤◌, ◌<◌, Err, IfErr, IfOk, OnErr, OnOk, length};
ghost use Rattle.kernel_uses.specs.Uses.{AddsEntry, GoesOn, next_cycle, next_outputs};
ghost use Rattle.motion_history.specs.Calls.{IsCall};
ghost use Rattle.motion_history.specs.Entries.{call, cycles_of};
ghost use Rattle.motion_kernel.specs.KernelState.{room_of, state_of};
ghost use Rattle.motion_kernel.specs.calls.Calls.{reply_of};

use motion_kernel::{DriveIn, DriveOut, Inputs, Kernel, Outputs};

/// Why an event isn't made. The kernel is then as it was: a caller may still read and write its
/// history, and has to open another kernel to go on.
#[derive(Clone, Copy, Debug, PartialEq, Eq)]
pub enum NotMade {
    /// The history has no room left, or the kernel was stopped.
    HistoryFull,
    /// No cycle is left.
    CyclesOver,
    /// There is no such block, or the inputs aren't those of its kind.
    NoSuchCall,
}

/// Calls a block in its task, and answers its outputs, where there is room for the entry and the
/// inputs are those of the block's kind. Room is looked at first.
#[tactic(auto, using(crate::proofs::Going::goes_as_it_is, crate::proofs::Going::goes_by_entry))]
pub fn try_call(kernel: &mut Kernel, block: u16, inputs: &Inputs) -> Result<Outputs, NotMade>
    ensures reply { IfOk result (λ o. o ≡
        reply_of kernel.old.config (state_of kernel.old) block inputs.now) }
    ensures made { IfOk result (λ o. AddsEntry kernel.old kernel.new (call block inputs.now o)) }
    ensures full { (result ≡ Err NotMade.HistoryFull) ↔
        (room_of kernel.old ≤ length kernel.old.history) }
    ensures no_call { (result ≡ Err NotMade.NoSuchCall) ↔
        ((length kernel.old.history < room_of kernel.old) ×
        (IsCall kernel.old.config block inputs.now → ⊥)) }
    ensures cycles { result ≢ Err NotMade.CyclesOver }
    ensures unchanged { OnErr result (kernel.new ≡ kernel.old) }
    ensures goes { GoesOn kernel.old kernel.new }
{
    room_for_one(kernel)?;
    call_of_block(kernel, block, inputs)?;
    let task = kernel.config().blocks()[block as usize].task;
    Ok(kernel.call(task, block, inputs))
}

/// Goes through a cycle with one answer and one output for each axis, where there are a cycle and
/// room left. Cycles are looked at first.
#[tactic(auto, using(crate::proofs::Going::goes_as_it_is, crate::proofs::Going::goes_by_entry))]
pub fn try_cycle(
    kernel: &mut Kernel,
    answers: &[DriveIn],
    outs: &mut [DriveOut],
) -> Result<(), NotMade>
    requires answers { length answers.now ≡ length kernel.old.config.axes }
    requires outs { length outs.old ≡ length kernel.old.config.axes }
    ensures outs { OnOk result (outs.new ≡ next_outputs kernel.old answers.now) }
    ensures made { OnOk result (AddsEntry kernel.old kernel.new
        (next_cycle kernel.old answers.now)) }
    ensures over { (result ≡ Err NotMade.CyclesOver) ↔
        (kernel.old.config.cycles ≤ cycles_of kernel.old.history) }
    ensures full { (result ≡ Err NotMade.HistoryFull) ↔
        ((cycles_of kernel.old.history < kernel.old.config.cycles) ×
        (room_of kernel.old ≤ length kernel.old.history)) }
    ensures call { result ≢ Err NotMade.NoSuchCall }
    ensures unchanged { OnErr result (kernel.new ≡ kernel.old) }
    ensures goes { GoesOn kernel.old kernel.new }
{
    cycle_left(kernel)?;
    room_for_one(kernel)?;
    kernel.cycle(answers, outs);
    Ok(())
}

// Whether there is room for an entry.
fn room_for_one(kernel: &Kernel) -> Result<(), NotMade>
    ensures room { OnOk result (length kernel.now.history < room_of kernel.now) }
    ensures full { IfErr result (λ e. (e ≡ NotMade.HistoryFull) ×
        (room_of kernel.now ≤ length kernel.now.history)) }
{
    if kernel.room_left() == 0 {
        Err(NotMade::HistoryFull)
    } else {
        Ok(())
    }
}

// Whether a cycle is left.
fn cycle_left(kernel: &Kernel) -> Result<(), NotMade>
    ensures left { OnOk result (cycles_of kernel.now.history < kernel.now.config.cycles) }
    ensures over { IfErr result (λ e. (e ≡ NotMade.CyclesOver) ×
        (kernel.now.config.cycles ≤ cycles_of kernel.now.history)) }
{
    if kernel.cycles_left() == 0 {
        Err(NotMade::CyclesOver)
    } else {
        Ok(())
    }
}

// Whether there is such a block, and the inputs are those of its kind.
fn call_of_block(kernel: &Kernel, block: u16, inputs: &Inputs) -> Result<(), NotMade>
    ensures call { OnOk result (IsCall kernel.now.config block inputs.now) }
    ensures none { IfErr result (λ e. (e ≡ NotMade.NoSuchCall) ×
        (IsCall kernel.now.config block inputs.now → ⊥)) }
{
    if kernel.config().may_be_called(block, inputs) {
        Ok(())
    } else {
        Err(NotMade::NoSuchCall)
    }
}
