// The kernel: its state is the replay of its history.

ghost use Rattle.std.specs.Prelude.{◌≡◌, ◌<◌, ◌≤◌, ◌+◌, ◌-◌, ◌++◌, ◌∷◌, [], length, map, IfOk, IsSomeAnd, slice_get, All, true, false};
ghost use Rattle.std.specs.Option.{option_map};
ghost use Rattle.plc_types.specs.declared.axis.AxisRow.{AxisRow};
ghost use Rattle.plc_types.specs.declared.drive.DriveIn.{DriveIn};
ghost use Rattle.motion_history.specs.Bits.{HasBits};
ghost use Rattle.motion_history.specs.Calls.{IsCall};
ghost use Rattle.motion_history.specs.Entries.{call, cycle, end_of, cycles_of};
ghost use Rattle.motion_history.specs.LastCycles.{cycle_told, last_cycle_of};
ghost use Rattle.motion_history.specs.Setup.{IsSetup};
ghost use Rattle.motion_kernel.specs.calls.Calls.{reply_of};
ghost use Rattle.motion_kernel.specs.cycles.Cycles.{cycled};
ghost use Rattle.motion_kernel.specs.Histories.{IsLegal};
ghost use Rattle.motion_kernel.specs.KernelState.{KernelState, room_of, state_of};
ghost use Rattle.motion_kernel.specs.kept.Machine.{AreWhole};
ghost use Rattle.motion_kernel.specs.Tasks.{live_tasks, quiet_tasks};

use crate::segmented::SegmentedKernel;
use crate::tasks::TaskMarks;
use motion_history::{Config, CycleLook, History, OutOfMemory, configurations_are_sound};
use plc_types::{DriveIn, DriveOut, Inputs, Outputs};
use std::alloc::{AllocError, Global};
use std::marker::Model;

/// Why a kernel isn't opened.
#[derive(Clone, Copy, Debug, PartialEq, Eq)]
pub enum OpenFault {
    OutOfMemory,
}

impl From<AllocError> for OpenFault {
    fn from(_: AllocError) -> OpenFault {
        OpenFault::OutOfMemory
    }
}

impl From<OutOfMemory> for OpenFault {
    fn from(_: OutOfMemory) -> OpenFault {
        OpenFault::OutOfMemory
    }
}

/// A motion kernel. Contracts see it as its configuration, its history, and whether it was stopped.
#[derive(Drop)]
pub struct Kernel {
    segmented: SegmentedKernel,
    tasks: TaskMarks,
    stopped: bool,
}

impl Model for Kernel {
    ghost use Rattle.motion_kernel.specs.KernelState.{KernelState};

    ghost Value = { KernelState };

    ghost use Rattle.motion_kernel.specs.kept.Kernel.{told_of, IsKernelKept};

    ghost view = { told_of };

    ghost invariant = { IsKernelKept };
}

impl Kernel {
    /// A kernel at rest, with the whole room of its history reserved.
    pub fn open(alloc: Global, config: Config) -> Result<Kernel, OpenFault>
        ensures { IfOk result (λ k. k ≡ record { config = config; history = []; stopped = false }) }
    {
        let segmented = SegmentedKernel::open(alloc, config)?;
        // law: a configuration has at most eight tasks
        let _ = segmented.history();
        let tasks = TaskMarks::open();
        Ok(Kernel {
            segmented,
            tasks,
            stopped: false,
        })
    }

    /// Touches the memory of the history's whole room, so that no call and no cycle pays for its
    /// pages.
    pub fn touch(&mut self)
        ensures { self.new ≡ self.old }
    {
        self.segmented.touch();
    }

    /// Calls a block, which belongs to this task, and answers its outputs.
    pub fn call(&mut self, task: u8, instance: u16, inputs: &Inputs) -> Outputs
        requires room { length self.old.history < room_of self.old }
        requires task { IsSomeAnd (slice_get self.old.config.blocks instance) (λ b. b.task ≡ task) }
        requires call { IsCall self.old.config instance inputs.now }
        ensures reply { result ≡ reply_of self.old.config (state_of self.old) instance inputs.now }
        ensures after { self.new ≡ record self.old {
          history = self.old.history ++ call instance inputs.now result ∷ [];
        } }
    {
        // law: a configuration has at most eight tasks
        configurations_are_sound();
        let _ = self.segmented.history();
        let reply = self.segmented.call(instance, inputs);
        self.tasks.hear(task);
        reply
    }

    /// Goes through a cycle with the drives' answers, and gives each drive its controlword, mode
    /// and target.
    pub fn cycle(&mut self, ins: &[DriveIn], outs: &mut [DriveOut])
        requires room { length self.old.history < room_of self.old }
        requires cycle { cycles_of self.old.history < self.old.config.cycles }
        requires ins { length ins.now ≡ length self.old.config.axes }
        requires outs { length outs.old ≡ length self.old.config.axes }
        ensures outs { outs.new ≡ map (λ (r : AxisRow). r.output) (cycled self.old.config
            (state_of self.old) ins.now).axes }
        ensures after { self.new ≡ record self.old {
          history = self.old.history ++
              cycle (cycles_of self.old.history + 1) (cycled self.old.config
              (state_of self.old) ins.now).axes
              (cycled self.old.config (state_of self.old) ins.now).groups ∷ [];
        } }
    {
        self.segmented.cycle(ins, outs);
        self.tasks.quiet_all();
    }

    /// Ends a task. A second end of a task makes an entry and changes nothing else.
    pub fn end(&mut self, task: u8)
        requires room { length self.old.history < room_of self.old }
        requires task { task < length self.old.config.tasks }
        ensures { self.new ≡ record self.old { history = self.old.history ++ end_of task ∷ [] } }
    {
        self.segmented.end(task);
        self.tasks.end(task);
    }

    /// Stops the kernel: its history takes no entry more.
    pub fn stop(&mut self)
        ensures { self.new ≡ record self.old { stopped = true } }
    {
        self.stopped = true;
    }

    /// The configuration.
    pub fn config(&self) -> &Config
        ensures { result.now ≡ self.now.config }
    {
        self.segmented.config()
    }

    /// How many entries more the history has room for.
    pub fn room_left(&self) -> u64
        ensures { result ≡ room_of self.now - length self.now.history }
    {
        if self.stopped {
            return 0;
        }
        self.segmented.room_left()
    }

    /// How many cycles more there may be.
    pub fn cycles_left(&self) -> u32
        ensures { result ≡ self.now.config.cycles - cycles_of self.now.history }
    {
        self.segmented.cycles_left()
    }

    /// How many cycles were made, at most the configured number.
    pub fn cycles_made(&self) -> u32
        ensures cycles { result ≡ cycles_of self.now.history }
        ensures few { result ≤ self.now.config.cycles }
    {
        self.segmented.cycles_made()
    }

    /// How many tasks live: those that have not ended.
    pub fn live_tasks(&self) -> u8
        ensures { result ≡ live_tasks self.now.config self.now.history }
    {
        self.tasks.live(self.segmented.config().tasks().len())
    }

    /// How many tasks are quiet: those that live and have made no entry since the last cycle or,
    /// before the first, since opening.
    pub fn quiet_tasks(&self) -> u8
        ensures { result ≡ quiet_tasks self.now.config self.now.history }
    {
        self.tasks.quiet(self.segmented.config().tasks().len())
    }

    /// The history so far: a legal one, for a sound configuration whose groups are whole. That is
    /// what the laws over histories ask of one. Its numbers have the bits of their types.
    pub fn history(&self) -> &History
        ensures entries { result.now.entries ≡ self.now.history }
        ensures legal { IsLegal self.now.config self.now.history }
        ensures setup { IsSetup self.now.config }
        ensures whole { AreWhole self.now.config }
        ensures bits { All HasBits self.now.history }
    {
        self.segmented.history()
    }

    /// The last cycle, if there was one: its number and its rows.
    pub fn last_cycle(&self) -> Option<CycleLook<'_>>
        ensures { option_map cycle_told result ≡ last_cycle_of self.now.history }
    {
        self.segmented.last_cycle()
    }
}
