// The generated load.

ghost use Rattle.std.specs.Prelude.{◌≡◌, ◌++◌, ◌∷◌, [], IfOk, OnOk, replicate};
ghost use Rattle.bench_text.specs.declared.bench.BenchLine.TheVariants.{Call};
ghost use Rattle.motion_history.specs.Drives as plain;
ghost use Rattle.motion_history.specs.Setup.{IsSetup};
ghost use Rattle.load_job.specs.Load as spec;
ghost use Rattle.load_job.specs.Machine as bench_machine;

use crate::draws::Draws;
use crate::machine::{AXES, BLOCKS, machine};
use crate::round::{Round, draw_round};
use bench_text::{Bench, BenchLine};
use machine_words::plain_drive;
use motion_history::{Config, DriveDefs, MOST_MEMBERS, OutOfMemory, TraceVersion};
use plc_types::{INPUTS_OFF, Inputs};
use std::alloc::{AllocError, Global};

/// How many rounds there are.
const ROUNDS: usize = 2000;

/// The lines of a round.
const LINES: usize = 3;

/// The cycles of a round.
const CYCLES: u32 = 5;

/// The bench that a seed generates: 2,000 rounds on a machine of eight axes. It takes memory for
/// the bench alone.
#[tactic(auto, unfolding(crate::specs::Load::generated_bench))]
pub fn generate(alloc: Global, seed: u32) -> Result<Bench, OutOfMemory>
    ensures { IfOk result (λ bench. bench ≡ spec.generated_bench seed) }
{
    let config = load_machine(alloc)?;
    let drives = plain_drives(alloc)?;
    let lines = lines_from(alloc, seed)?;
    Ok(Bench::new(TraceVersion::One, config, drives, lines))
}

// The machine, or there is no memory for it.
fn load_machine(alloc: Global) -> Result<Config, OutOfMemory>
    ensures ok { IfOk result (λ c. c ≡ bench_machine.machine) }
    ensures setup { IfOk result (λ c. IsSetup c) }
{
    let Ok(config) = machine(alloc) else {
        return Err(OutOfMemory);
    };
    Ok(config)
}

// A drive without a lag and faults for each axis.
fn plain_drives(alloc: Global) -> Result<DriveDefs, OutOfMemory>
    ensures { IfOk result (λ drives. drives ≡ replicate 8 plain.plain_drive) }
{
    let mut drives = DriveDefs::new(alloc);
    for _ in 0..AXES {
        drives.push(plain_drive(alloc))?;
    }
    Ok(drives)
}

// The rounds from a seed on, and the end of the task.
fn lines_from(alloc: Global, seed: u32) -> Result<Vec<BenchLine>, AllocError>
    ensures { IfOk result (λ lines. lines.items ≡ spec.lines_from seed) }
{
    let mut lines = Vec::with_capacity(alloc, ROUNDS * LINES + 1)?;
    let mut draws = Draws::from_seed(seed);
    for _ in 0..ROUNDS {
        push_round(&mut lines, &draw_round(&mut draws))?;
    }
    lines.push(BenchLine::End { task: 0 })?;
    Ok(lines)
}

// Adds the lines of a round.
#[tactic(auto, unfolding(crate::specs::Load::lines_of))]
fn push_round(lines: &mut Vec<BenchLine>, round: &Round) -> Result<(), AllocError>
    ensures { OnOk result (lines.new.items ≡ lines.old.items ++ spec.lines_of round.now) }
{
    let instance = instance_of(round);
    push_call(lines, instance, INPUTS_OFF)?;
    push_call(lines, instance, inputs_of(round))?;
    lines.push(BenchLine::Cycles { count: CYCLES })?;
    Ok(())
}

// Adds a call of an instance.
fn push_call(lines: &mut Vec<BenchLine>, instance: u16, inputs: Inputs) -> Result<(), AllocError>
    ensures { OnOk result (lines.new.items ≡ lines.old.items ++ Call instance inputs ∷ []) }
{
    lines.push(BenchLine::Call { instance, inputs })?;
    Ok(())
}

// The instance that a round calls.
fn instance_of(round: &Round) -> u16
    ensures { result ≡ spec.number_of round.now }
{
    u16::from(round.axis) * u16::from(BLOCKS) + u16::from(round.block)
}

// The inputs of a round's call with Execute true.
fn inputs_of(round: &Round) -> Inputs
    ensures { result ≡ spec.inputs_of round.now }
{
    let mut positions = [0; MOST_MEMBERS];
    positions[0] = i64::from(round.position);
    Inputs {
        execute: true,
        positions,
        velocity: i64::from(round.velocity),
        acceleration: i64::from(round.acceleration),
        deceleration: i64::from(round.deceleration),
        mode: round.mode,
        ..INPUTS_OFF
    }
}
