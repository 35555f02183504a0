// The simulated drive.

ghost use Rattle.std.specs.Prelude.{◌≡◌, ◌≤◌, [], IfOk, length};
ghost use Rattle.drive_sim.specs.Faults.{RisesAbove};
ghost use Rattle.drive_sim.specs.Steps as spec;

use crate::steps::{followed, has_fault, keeps_target};
use cia402_machine::{DISABLE_VOLTAGE, ENABLE_OPERATION, drive_step, status_of};
use circular_buffer::HeapCircularBuffer;
use motion_numbers::OutOfMemory;
use plc_types::{CYCLIC_SYNCHRONOUS_POSITION, DriveIn, DriveOut, DriveState};
use std::alloc::Global;
use std::marker::Model;

/// A drive that follows its targets with a lag and has faults in given steps.
#[derive(Drop)]
pub struct Drive {
    faults: Vec<u32>,
    steps: u64,
    state: DriveState,
    last: u16,
    mode_display: i8,
    actual: i32,
    kept: HeapCircularBuffer<i32>,
}

impl Model for Drive {
    ghost use Rattle.drive_sim.specs.Sim.{DriveSim};

    ghost Value = { DriveSim };

    ghost use Rattle.drive_sim.specs.Inside.{sim_of, IsSim};

    ghost view = { sim_of };

    ghost invariant = { IsSim };
}

/// A drive with these fault steps and this room for kept targets, as it opens.
fn opened(faults: Vec<u32>, kept: HeapCircularBuffer<i32>, count: i32, ready: bool) -> Drive
    requires empty { kept.items ≡ [] }
    requires rising { RisesAbove 0 faults.items }
    ensures { result ≡ spec.opened kept.capacity faults.items count ready }
{
    if ready {
        Drive {
            faults,
            steps: 0,
            state: DriveState::OperationEnabled,
            last: ENABLE_OPERATION,
            mode_display: CYCLIC_SYNCHRONOUS_POSITION,
            actual: count,
            kept,
        }
    } else {
        Drive {
            faults,
            steps: 0,
            state: DriveState::SwitchOnDisabled,
            last: DISABLE_VOLTAGE,
            mode_display: 0,
            actual: count,
            kept,
        }
    }
}

impl Drive {
    /// A drive with this lag in steps, up to 64, which has a fault in each of these steps, at most
    /// 1,000 that rise from 1, and stands at this count. It opens ready in Operation enabled and
    /// cyclic synchronous position mode, else in Switch on disabled.
    pub fn open(
        alloc: Global,
        lag: u8,
        faults: &[u32],
        count: i32,
        ready: bool,
    ) -> Result<Drive, OutOfMemory>
        requires lag { lag ≤ 64 }
        requires few { length faults.now ≤ 1000 }
        requires rising { RisesAbove 0 faults.now }
        ensures { IfOk result (λ drive. drive ≡ spec.opened lag faults.now count ready) }
    {
        let faults = faults.to_vec(alloc)?;
        let kept = HeapCircularBuffer::with_capacity(alloc, lag as usize)?;
        Ok(opened(faults, kept, count, ready))
    }

    /// What the drive answers before its next step.
    pub fn answer(&self) -> DriveIn
        ensures { result ≡ spec.answer_of self.now }
    {
        DriveIn {
            statusword: status_of(self.state),
            mode_display: self.mode_display,
            actual: self.actual,
        }
    }

    /// Makes a step with an output, and answers.
    pub fn step(&mut self, out: &DriveOut) -> DriveIn
        ensures after { self.new ≡ spec.drive_stepped self.old out.now }
        ensures answer { result ≡ spec.answer_of self.new }
    {
        self.steps = self.steps.saturating_add(1);
        let fault = has_fault(&self.faults, self.steps);
        let before = self.state;
        self.state = drive_step(before, self.last, out.controlword, fault);
        let keeps = keeps_target(before, self.state, out.mode);
        self.actual = followed(&mut self.kept, keeps, out.target, self.actual);
        self.last = out.controlword;
        self.mode_display = out.mode;
        self.answer()
    }
}
