// The events of a bench, one after another on a kernel, with its drives in step.

ghost use Rattle.std.specs.Prelude.{◌≡◌, ◌<◌, IfOk, IsTrue, OnOk, Ok, List, length, All, false, replicate};
ghost use Rattle.std.specs.List.{flat_map};
ghost use Rattle.bench_text.specs.BenchState.{IsLineOf};
ghost use Rattle.drive_sim.specs.Sim.{DriveSim};
ghost use Rattle.motion_history.specs.Calls.{IsCall};
ghost use Rattle.motion_history.specs.Entries.{cycles_of};
ghost use Rattle.motion_kernel.specs.calls.Calls.{reply_of};
ghost use Rattle.motion_kernel.specs.KernelState.{state_of};
ghost use Rattle.bench_run.specs.Going.{IsGoing, ending_of, run_at};
ghost use Rattle.bench_run.specs.Run as spec;

use crate::bench::RunFault;
use bench_text::BenchLine;
use drive_sim::Drive;
use hot_standby::PrimaryKernel;
use machine_drives::{answer_all, step_all};
use motion_history::MOST_AXES;
use plc_types::{Inputs, NO_ANSWER, NO_OUTPUT, Outputs};

// Whether there is room for an event: for a cycle, cycles first, then entries.
#[tactic(auto, unfolding(crate::specs::Run::room_for))]
fn room_for(kernel: &PrimaryKernel, is_cycle: bool) -> Result<(), RunFault>
    requires { kernel.now.kernel.stopped ≡ false }
    ensures value { result ≡
        spec.room_for kernel.now.kernel.config kernel.now.kernel.history is_cycle }
    ensures room { OnOk result
        (length kernel.now.kernel.history < kernel.now.kernel.config.entries) }
    ensures cycle { OnOk result (IsTrue is_cycle →
        cycles_of kernel.now.kernel.history < kernel.now.kernel.config.cycles) }
{
    if is_cycle && kernel.cycles_left() == 0 {
        Err(RunFault::CyclesOver)
    } else if kernel.room_left() == 0 {
        Err(RunFault::HistoryFull)
    } else {
        Ok(())
    }
}

// A cycle of the kernel and the drives, for which there is room.
#[tactic(auto, unfolding(crate::specs::Run::cycled))]
fn cycle_once(kernel: &mut PrimaryKernel, drives: &mut [Drive])
    requires room { length kernel.old.kernel.history < kernel.old.kernel.config.entries }
    requires cycle { cycles_of kernel.old.kernel.history < kernel.old.kernel.config.cycles }
    requires going { IsGoing kernel.old.kernel drives.old }
    ensures config { kernel.new.kernel.config ≡ kernel.old.kernel.config }
    ensures made { run_at kernel.new.kernel drives.new (Ok tt) ≡
        spec.cycled kernel.old.kernel.config (run_at kernel.old.kernel drives.old (Ok tt)) }
    ensures going { IsGoing kernel.new.kernel drives.new }
{
    let mut answers = [NO_ANSWER; MOST_AXES];
    let answers = &mut answers[..drives.len()];
    let mut outs = [NO_OUTPUT; MOST_AXES];
    let outs = &mut outs[..drives.len()];
    answer_all(drives, answers);
    kernel.cycle(answers, outs);
    step_all(drives, outs);
}

/// A cycle, where one is left and there is room for it: each drive makes a step with its output.
pub fn make_cycle(kernel: &mut PrimaryKernel, drives: &mut [Drive]) -> Result<(), RunFault>
    requires going { IsGoing kernel.old.kernel drives.old }
    ensures config { kernel.new.kernel.config ≡ kernel.old.kernel.config }
    ensures made { run_at kernel.new.kernel drives.new result ≡
        spec.made kernel.old.kernel.config spec.a_cycle
        (run_at kernel.old.kernel drives.old (Ok tt)) }
    ensures going { IsGoing kernel.new.kernel drives.new }
{
    room_for(kernel, true)?;
    cycle_once(kernel, drives);
    Ok(())
}

// This many cycles.
#[tactic(auto, unfolding(crate::specs::Run::made_all))]
fn make_cycles(kernel: &mut PrimaryKernel, drives: &mut [Drive], count: u32) -> Result<(), RunFault>
    requires going { IsGoing kernel.old.kernel drives.old }
    ensures config { kernel.new.kernel.config ≡ kernel.old.kernel.config }
    ensures made { run_at kernel.new.kernel drives.new result ≡
        spec.made_all kernel.old.kernel.config (replicate count spec.a_cycle)
        (run_at kernel.old.kernel drives.old (Ok tt)) }
    ensures going { IsGoing kernel.new.kernel drives.new }
{
    for _ in 0..count {
        make_cycle(kernel, drives)?;
    }
    Ok(())
}

/// A call of a block, in its task, where there is room for it: its reply.
pub fn make_call(
    kernel: &mut PrimaryKernel,
    instance: u16,
    inputs: &Inputs,
) -> Result<Outputs, RunFault>
    requires runs { kernel.old.kernel.stopped ≡ false }
    requires call { IsCall kernel.old.kernel.config instance inputs.now }
    ensures config { kernel.new.kernel.config ≡ kernel.old.kernel.config }
    ensures runs { kernel.new.kernel.stopped ≡ false }
    ensures made { (drives : List DriveSim) → run_at kernel.new.kernel drives (ending_of result) ≡
        spec.made kernel.old.kernel.config (spec.a_call instance inputs.now)
        (run_at kernel.old.kernel drives (Ok tt)) }
    ensures reply { IfOk result (λ o. o ≡
        reply_of kernel.old.kernel.config (state_of kernel.old.kernel) instance inputs.now) }
{
    room_for(kernel, false)?;
    let task = kernel.config().blocks()[instance as usize].task;
    Ok(kernel.call(task, instance, inputs))
}

/// The end of a task, where there is room for it.
pub fn make_end(kernel: &mut PrimaryKernel, task: u8) -> Result<(), RunFault>
    requires runs { kernel.old.kernel.stopped ≡ false }
    requires task { task < length kernel.old.kernel.config.tasks }
    ensures config { kernel.new.kernel.config ≡ kernel.old.kernel.config }
    ensures runs { kernel.new.kernel.stopped ≡ false }
    ensures made { (drives : List DriveSim) → run_at kernel.new.kernel drives result ≡
        spec.made kernel.old.kernel.config (spec.an_end task)
        (run_at kernel.old.kernel drives (Ok tt)) }
{
    room_for(kernel, false)?;
    kernel.end(task);
    Ok(())
}

// The events of a line.
#[tactic(auto, unfolding(crate::specs::Run::events_of, crate::specs::Run::made_all))]
fn make_line(
    kernel: &mut PrimaryKernel,
    drives: &mut [Drive],
    line: &BenchLine,
) -> Result<(), RunFault>
    requires line { IsLineOf kernel.old.kernel.config line.now }
    requires going { IsGoing kernel.old.kernel drives.old }
    ensures config { kernel.new.kernel.config ≡ kernel.old.kernel.config }
    ensures made { run_at kernel.new.kernel drives.new result ≡
        spec.made_all kernel.old.kernel.config (spec.events_of line.now)
        (run_at kernel.old.kernel drives.old (Ok tt)) }
    ensures going { IsGoing kernel.new.kernel drives.new }
{
    match line {
        BenchLine::Call { instance, inputs } => {
            make_call(kernel, *instance, inputs)?;
            Ok(())
        }
        BenchLine::Cycles { count } => make_cycles(kernel, drives, *count),
        BenchLine::End { task } => make_end(kernel, *task),
    }
}

/// The events of lines, one after another.
#[tactic(auto, unfolding(crate::specs::Run::made_all))]
pub fn make_all(
    kernel: &mut PrimaryKernel,
    drives: &mut [Drive],
    lines: &[BenchLine],
) -> Result<(), RunFault>
    requires lines { All (IsLineOf kernel.old.kernel.config) lines.now }
    requires going { IsGoing kernel.old.kernel drives.old }
    ensures config { kernel.new.kernel.config ≡ kernel.old.kernel.config }
    ensures made { run_at kernel.new.kernel drives.new result ≡
        spec.made_all kernel.old.kernel.config (flat_map spec.events_of lines.now)
        (run_at kernel.old.kernel drives.old (Ok tt)) }
    ensures going { IsGoing kernel.new.kernel drives.new }
{
    for line in lines {
        make_line(kernel, drives, line)?;
    }
    Ok(())
}
