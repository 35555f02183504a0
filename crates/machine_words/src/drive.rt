// The drives of a text.

ghost use Rattle.std.specs.Prelude.{◌≡◌, ◌≤◌, length, IfErr, IfOk};
ghost use Rattle.line_text.specs.Reading.{Gives, each_of};
ghost use Rattle.line_text.specs.Rules as rules;
ghost use Rattle.motion_history.specs.Drives as drives;
ghost use Rattle.motion_history.specs.Drives.{IsDrive};
ghost use Rattle.machine_words.specs.Drives as spec;

use crate::rule::ItemRules;
use line_text::{LineFault, broken_unless, in_range};
use motion_history::{DriveDef, FaultList, MOST_FAULTS, MOST_LAG};
use std::alloc::Global;

/// The greatest step of a fault.
pub const MOST_STEPS: u32 = u32::MAX;

/// A drive without a lag and faults.
pub fn plain_drive(alloc: Global) -> DriveDef
    ensures { result ≡ drives.plain_drive }
{
    DriveDef {
        lag: 0,
        faults: FaultList::new(alloc),
    }
}

/// The drive with this lag and faults in these steps.
#[tactic(auto, unfolding(crate::specs::Drives::drive_in))]
pub fn drive_in(
    alloc: Global,
    rules: ItemRules,
    lag: i64,
    faults: &[i64],
) -> Result<DriveDef, LineFault>
    ensures value { Gives (λ d. d) (spec.drive_in rules lag faults.now) result }
    ensures drive { IfOk result IsDrive }
{
    let lag = in_range(0, u32::from(MOST_LAG), rules.wrong, lag)?;
    let steps = steps_of(alloc, rules.wrong, faults)?;
    broken_unless(are_rising(steps.as_slice()), rules.wrong)?;
    broken_unless(steps.len() <= MOST_FAULTS as usize, rules.too_many)?;
    let faults = faults_of(alloc, steps.as_slice())?;
    Ok(DriveDef {
        lag: lag as u8,
        faults,
    })
}

// The steps that numbers are.
fn steps_of(alloc: Global, rule: u8, numbers: &[i64]) -> Result<Vec<u32>, LineFault>
    ensures { Gives (λ v. v.items) (each_of (rules.in_range 1 4294967295 rule) numbers.now) result }
{
    let mut steps = Vec::new(alloc);
    for number in numbers {
        let step = in_range(1, MOST_STEPS, rule, *number)?;
        let Ok(()) = steps.push(step) else {
            return Err(LineFault::OutOfMemory);
        };
    }
    Ok(steps)
}

// Whether each step is above the one before, the first above 0.
fn are_rising(steps: &[u32]) -> bool
    ensures { result ≡ drives.rise_above 0 steps.now }
{
    let mut before = 0;
    for step in steps {
        if *step <= before {
            return false;
        }
        before = *step;
    }
    true
}

// The faults in these steps.
fn faults_of(alloc: Global, steps: &[u32]) -> Result<FaultList, LineFault>
    requires { length steps.now ≤ 1000 }
    ensures ok { IfOk result (λ faults. faults ≡ steps.now) }
    ensures only { IfErr result (λ fault. fault ≡ LineFault.OutOfMemory) }
{
    let mut faults = FaultList::new(alloc);
    for step in steps {
        let Ok(()) = faults.push(*step) else {
            return Err(LineFault::OutOfMemory);
        };
    }
    Ok(faults)
}
