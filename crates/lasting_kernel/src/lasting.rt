// The kernel that runs for as long as one likes.

ghost use Rattle.std.specs.Prelude.{◌≡◌, ◌<◌, ◌+◌, IfOk, length, map};
ghost use Rattle.plc_types.specs.declared.axis.AxisRow.{AxisRow};
ghost use Rattle.lasting_kernel.specs.Lasting.{HasPast, after_hand_over, opened, whole_of, with_entry};
ghost use Rattle.motion_history.specs.Calls.{IsCall};
ghost use Rattle.motion_history.specs.Entries.{call, cycle, cycles_of, end_of};
ghost use Rattle.motion_history.specs.Setup.{IsSetup};
ghost use Rattle.motion_kernel.specs.Segments.{IsEarly, machine_now};
ghost use Rattle.motion_kernel.specs.calls.Calls.{reply_of};
ghost use Rattle.motion_kernel.specs.cycles.Cycles.{cycled};
ghost use Rattle.motion_kernel.specs.Histories.{IsPast, machine_from};
ghost use Rattle.motion_kernel.specs.kept.Machine.{AreWhole};
ghost use Rattle.motion_kernel.specs.Machine.{machine_at_opening};
ghost use Rattle.motion_laws.specs.Laws.{KeepsLaws};

use crate::kernel_with_past::KernelWithPast;
use crate::past::Past;
use motion_history::{Config, DriveIn, DriveOut, Inputs, OutOfMemory, Outputs};
use motion_kernel::SegmentedKernel;
use motion_laws::segments_keep_their_laws;
use std::alloc::Global;
use std::marker::Model;
use std::mem::replace;

/// A kernel that runs for as long as one likes: it holds the last segment of its history, and hands
/// it over, full or not, where its caller says so. Contracts see it as a kernel with all that was
/// before its segment, which is the machine's from opening on and leads to the machine with which
/// the segment begins.
#[derive(Drop)]
pub struct LastingKernel {
    kernel_with_past: KernelWithPast,
}

impl Model for LastingKernel {
    ghost use Rattle.lasting_kernel.specs.Lasting.{HasPast, LastingState};

    ghost Value = { LastingState };

    ghost view = { λ k. record { kernel = k.kernel_with_past.kernel; past = k.kernel_with_past.past.entries } };

    ghost invariant = { λ k.
        HasPast (record { kernel = k.kernel_with_past.kernel; past = k.kernel_with_past.past.entries }) };
}

impl LastingKernel {
    /// A kernel at rest, with the whole room of its segment reserved.
    pub fn open(alloc: Global, config: Config) -> Result<LastingKernel, OutOfMemory>
        ensures { IfOk result (λ k. k ≡ opened config) }
    {
        let kernel = SegmentedKernel::open(alloc, config)?;
        let past = Past::none(&kernel);
        Ok(LastingKernel {
            kernel_with_past: KernelWithPast { past, kernel },
        })
    }

    /// Touches the memory of the segment's whole room, so that no call and no cycle pays for its
    /// pages.
    pub fn touch(&mut self)
        ensures { self.new ≡ self.old }
    {
        self.kernel_with_past.kernel.touch();
    }

    /// Calls a block, and answers its outputs.
    pub fn call(&mut self, instance: u16, inputs: &Inputs) -> Outputs
        requires room { length self.old.kernel.history < self.old.kernel.config.entries }
        requires call { IsCall self.old.kernel.config instance inputs.now }
        ensures reply { result ≡ reply_of self.old.kernel.config (machine_now self.old.kernel)
            instance inputs.now }
        ensures after { self.new ≡ with_entry self.old (call instance inputs.now result) }
    {
        self.kernel_with_past.kernel.call(instance, inputs)
    }

    /// Goes through a cycle with the drives' answers, and gives each drive its controlword, mode
    /// and target.
    pub fn cycle(&mut self, ins: &[DriveIn], outs: &mut [DriveOut])
        requires room { length self.old.kernel.history < self.old.kernel.config.entries }
        requires cycle { cycles_of self.old.kernel.history < self.old.kernel.config.cycles }
        requires ins { length ins.now ≡ length self.old.kernel.config.axes }
        requires outs { length outs.old ≡ length self.old.kernel.config.axes }
        ensures outs { outs.new ≡ map (λ (r : AxisRow). r.output) (cycled
            self.old.kernel.config (machine_now self.old.kernel) ins.now).axes }
        ensures after { self.new ≡ with_entry self.old (cycle
            (cycles_of self.old.kernel.history + 1)
            (cycled self.old.kernel.config (machine_now self.old.kernel) ins.now).axes
            (cycled self.old.kernel.config (machine_now self.old.kernel) ins.now).groups) }
    {
        self.kernel_with_past.kernel.cycle(ins, outs);
    }

    /// Ends a task. A second end of a task makes an entry and changes nothing else.
    pub fn end(&mut self, task: u8)
        requires room { length self.old.kernel.history < self.old.kernel.config.entries }
        requires task { task < length self.old.kernel.config.tasks }
        ensures { self.new ≡ with_entry self.old (end_of task) }
    {
        self.kernel_with_past.kernel.end(task);
    }

    /// The kernel with its segment, to look at: its configuration, its history and the room that is
    /// left, what was before the segment and the machine with which that begins.
    pub fn segment(&self) -> &SegmentedKernel
        ensures { result.now ≡ self.now.kernel }
    {
        &self.kernel_with_past.kernel
    }

    /// Hands its segment over to another kernel of the same configuration, which then is what this
    /// one was, and goes on with an empty one. It takes no memory, and as long whatever the
    /// segments hold. What was before must be early ([`motion_kernel::Before::is_early`]).
    pub fn hand_over(&mut self, other: &mut LastingKernel)
        requires early { IsEarly self.old.kernel.before }
        requires same { other.old.kernel.config ≡ self.old.kernel.config }
        ensures other { other.new ≡ self.old }
        ensures kernel { self.new ≡ after_hand_over self.old }
    {
        // law: the segment after the entries before it is one past, since it is legal
        segments_keep_their_laws();
        let _ = self.kernel_with_past.kernel.history();
        let joined = Past::joined(&self.kernel_with_past);
        self.kernel_with_past
            .kernel
            .hand_over(&mut other.kernel_with_past.kernel);
        other.kernel_with_past.past = replace(&mut self.kernel_with_past.past, joined);
    }

    /// Empties its segment, and goes on with it: what the segment held is past, and nowhere in
    /// memory. It takes no memory, and as long whatever the segment holds. What was before must be
    /// early ([`motion_kernel::Before::is_early`]).
    pub fn forget(&mut self)
        requires early { IsEarly self.old.kernel.before }
        ensures { self.new ≡ after_hand_over self.old }
    {
        // law: the segment after the entries before it is one past, since it is legal
        segments_keep_their_laws();
        let _ = self.kernel_with_past.kernel.history();
        self.kernel_with_past.past = Past::joined(&self.kernel_with_past);
        self.kernel_with_past.kernel.forget();
    }

    /// All entries so far, from opening on, keep the laws of motion, and the kernel is the machine
    /// to which they lead. It does nothing.
    pub fn keeps_laws(&self)
        ensures past { HasPast self.now }
        ensures whole_past { IsPast self.now.kernel.config (whole_of self.now) }
        ensures machine { machine_now self.now.kernel ≡ machine_from self.now.kernel.config
            (machine_at_opening self.now.kernel.config) (whole_of self.now) }
        ensures laws { KeepsLaws self.now.kernel.config (whole_of self.now) }
        ensures setup { IsSetup self.now.kernel.config }
        ensures whole { AreWhole self.now.kernel.config }
    {
        // law: segments that follow each other are one past
        segments_keep_their_laws();
        let _ = self.kernel_with_past.kernel.history();
    }
}
