// A kernel that a standby may follow. It is used as a kernel is, and is one in every contract.

ghost use Rattle.std.specs.Prelude.{◌≡◌, ◌<◌, ◌≤◌, ◌+◌, ◌-◌, ◌++◌, ◌∷◌, [], IfOk, IsSomeAnd, length, map, slice_get};
ghost use Rattle.plc_types.specs.declared.axis.AxisRow.{AxisRow};
ghost use Rattle.hot_standby.specs.Alike.{IsCycleWith};
ghost use Rattle.hot_standby.specs.Events.{opened};
ghost use Rattle.hot_standby.specs.Primaries.{cut_of};
ghost use Rattle.motion_history.specs.Calls.{IsCall};
ghost use Rattle.motion_history.specs.Entries.{call, cycle, end_of, cycles_of};
ghost use Rattle.motion_kernel.specs.calls.Calls.{reply_of};
ghost use Rattle.motion_kernel.specs.cycles.Cycles.{cycled};
ghost use Rattle.motion_kernel.specs.KernelState.{room_of, state_of};

use crate::event::FedEvent;
use crate::follower::{Follower, follow, switch_over};
use crate::opening::open_standby;
use motion_kernel::{Config, Inputs, Kernel, Outputs};
use motion_numbers::OutOfMemory;
use plc_types::{DriveIn, DriveOut, NO_ANSWER};
use std::alloc::Global;
use std::marker::Model;

/// A kernel that a standby may follow. Contracts see it as the kernel, whichever of the two it is,
/// and as the number of events after which the standby takes its place.
#[derive(Drop)]
pub struct PrimaryKernel {
    kernel: Kernel,
    pub(crate) follower: Option<Follower>,
    cut: u32,
}

impl Model for PrimaryKernel {
    ghost use Rattle.hot_standby.specs.Primaries.{Primary};

    ghost Value = { Primary };

    ghost use Rattle.hot_standby.specs.Primary.{primary_of, IsPrimary};

    ghost view = { primary_of };

    ghost invariant = { IsPrimary };
}

impl PrimaryKernel {
    /// A kernel at rest. Where a number of events is given, a standby follows it for as many, or
    /// until it is finished, and then takes its place.
    pub fn open(
        alloc: Global,
        config: Config,
        events: Option<u32>,
    ) -> Result<PrimaryKernel, OutOfMemory>
        ensures { IfOk result (λ k. k ≡ record { kernel = opened config; cut = cut_of events }) }
    {
        match events {
            None => alone(alloc, config),
            Some(events) => followed(alloc, config, events),
        }
    }

    /// Calls a block, as `Kernel::call` does.
    pub fn call(&mut self, task: u8, instance: u16, inputs: &Inputs) -> Outputs
        requires room { length self.old.kernel.history < room_of self.old.kernel }
        requires task { IsSomeAnd (slice_get self.old.kernel.config.blocks instance)
            (λ b. b.task ≡ task) }
        requires call { IsCall self.old.kernel.config instance inputs.now }
        ensures reply { result ≡
            reply_of self.old.kernel.config (state_of self.old.kernel) instance inputs.now }
        ensures after { self.new ≡ record self.old {
          kernel = record self.old.kernel {
            history = self.old.kernel.history ++ call instance inputs.now result ∷ [];
          };
        } }
    {
        let reply = self.kernel.call(task, instance, inputs);
        let event = FedEvent::Call {
            task,
            instance,
            inputs: *inputs,
        };
        follow(&mut self.follower, &mut self.kernel, &event);
        reply
    }

    /// Goes through a cycle, as `Kernel::cycle` does.
    pub fn cycle(&mut self, ins: &[DriveIn], outs: &mut [DriveOut])
        requires room { length self.old.kernel.history < room_of self.old.kernel }
        requires cycle { cycles_of self.old.kernel.history < self.old.kernel.config.cycles }
        requires ins { length ins.now ≡ length self.old.kernel.config.axes }
        requires outs { length outs.old ≡ length self.old.kernel.config.axes }
        ensures outs { outs.new ≡ map (λ (r : AxisRow). r.output) (cycled self.old.kernel.config
            (state_of self.old.kernel) ins.now).axes }
        ensures after { self.new ≡ record self.old {
          kernel = record self.old.kernel {
            history = self.old.kernel.history ++
                cycle (cycles_of self.old.kernel.history + 1) (cycled self.old.kernel.config
                (state_of self.old.kernel) ins.now).axes
                (cycled self.old.kernel.config (state_of self.old.kernel) ins.now).groups ∷ [];
          };
        } }
    {
        // a sound configuration has at most sixteen axes
        let _ = self.kernel.config().axes();
        let event = cycle_event(ins);
        self.kernel.cycle(ins, outs);
        follow(&mut self.follower, &mut self.kernel, &event);
    }

    /// Ends a task, as `Kernel::end` does.
    pub fn end(&mut self, task: u8)
        requires room { length self.old.kernel.history < room_of self.old.kernel }
        requires task { task < length self.old.kernel.config.tasks }
        ensures { self.new ≡ record self.old {
          kernel = record self.old.kernel {
            history = self.old.kernel.history ++ end_of task ∷ [];
          };
        } }
    {
        self.kernel.end(task);
        let event = FedEvent::End { task };
        follow(&mut self.follower, &mut self.kernel, &event);
    }

    /// The configuration.
    pub fn config(&self) -> &Config
        ensures { result.now ≡ self.now.kernel.config }
    {
        self.kernel.config()
    }

    /// How many entries more the history has room for.
    pub fn room_left(&self) -> u64
        ensures { result ≡ room_of self.now.kernel - length self.now.kernel.history }
    {
        self.kernel.room_left()
    }

    /// How many cycles more there may be.
    pub fn cycles_left(&self) -> u32
        ensures { result ≡ self.now.kernel.config.cycles - cycles_of self.now.kernel.history }
    {
        self.kernel.cycles_left()
    }

    /// The kernel: the standby's, where one was to follow.
    pub fn finish(self) -> Kernel
        ensures { result ≡ self.kernel }
    {
        let PrimaryKernel {
            mut kernel,
            follower,
            ..
        } = self;
        match follower {
            Some(follower) => switch_over(follower, &mut kernel),
            None => {}
        }
        kernel
    }
}

// A kernel at rest that no standby follows.
fn alone(alloc: Global, config: Config) -> Result<PrimaryKernel, OutOfMemory>
    ensures { IfOk result (λ k. k ≡ record { kernel = opened config; cut = 0 }) }
{
    match Kernel::open(alloc, config) {
        Ok(kernel) => Ok(PrimaryKernel {
            kernel,
            follower: None,
            cut: 0,
        }),
        Err(_) => Err(OutOfMemory),
    }
}

// A kernel at rest that a standby follows for as many events; the standby's own where it is none.
fn followed(alloc: Global, config: Config, events: u32) -> Result<PrimaryKernel, OutOfMemory>
    ensures { IfOk result (λ k. k ≡ record { kernel = opened config; cut = events }) }
{
    let (feed, standby) = open_standby(alloc, config.copy(alloc)?, 1)?;
    let Ok(mut kernel) = Kernel::open(alloc, config) else {
        return Err(OutOfMemory);
    };
    let follower = Follower {
        feed,
        standby,
        left: events,
    };
    let follower = if events == 0 {
        switch_over(follower, &mut kernel);
        None
    } else {
        Some(follower)
    };
    Ok(PrimaryKernel {
        kernel,
        follower,
        cut: events,
    })
}

// The event of a cycle with these answers.
fn cycle_event(ins: &[DriveIn]) -> FedEvent
    requires { length ins.now ≤ 16 }
    ensures { IsCycleWith ins.now result }
{
    let mut fed = [NO_ANSWER; 16];
    fed[..ins.len()].copy_from_slice(ins);
    FedEvent::Cycle {
        count: ins.len() as u8,
        ins: fed,
    }
}
