// The drives of a bench.

ghost use Rattle.std.specs.Prelude.{◌≡◌, slice_set};
ghost use Rattle.line_text.specs.Reading.{Gives};
ghost use Rattle.line_text.specs.Texts.{texts};
ghost use Rattle.bench_text.specs.Drives as spec;

use crate::item::RULES;
use line_text::LineFault;
use machine_words::{WRONG_COUNT, WRONG_NAME, axis_at, axis_named, drive_in, number, numbers};
use motion_history::{Builder, DriveDef};
use std::alloc::Global;

/// The axis of a line of drives, and the drive that the line states.
#[tactic(auto, unfolding(crate::specs::Drives::drive_meaning))]
pub fn drive_of(
    alloc: Global,
    machine: &Builder,
    words: &[&[u8]],
) -> Result<(u8, DriveDef), LineFault>
    ensures { Gives (λ d. d) (spec.drive_meaning machine.now (texts words.now)) result }
{
    let [name, lag, faults @ ..] = words else {
        return Err(LineFault::Rule(WRONG_COUNT));
    };
    let axis = axis_named(machine, WRONG_NAME, name)?;
    let lag = number(lag)?;
    let faults = numbers(alloc, faults)?;
    let drive = drive_in(alloc, RULES, lag, faults.as_slice())?;
    Ok((axis, drive))
}

/// Whether a line states the drive of an axis that is among those whose drives are stated.
#[tactic(auto, unfolding(crate::specs::Drives::is_stated))]
pub fn is_stated(machine: &Builder, stated: &[u8], words: &[&[u8]]) -> bool
    ensures { result ≡ spec.is_stated machine.now stated.now (texts words.now) }
{
    let [name, ..] = words else {
        return false;
    };
    match axis_at(machine, name) {
        Some(axis) => has_number(stated, axis),
        None => false,
    }
}

// Whether a number is one of some numbers.
fn has_number(numbers: &[u8], number: u8) -> bool
    ensures { result ≡ spec.has_number numbers.now number }
{
    numbers.iter().any(|other| number == *other)
}

/// Puts a drive in place of the plain one of its axis.
pub fn set_drive(drives: &mut [DriveDef], axis: u8, drive: DriveDef)
    ensures { drives.new ≡ slice_set drives.old axis drive }
{
    if (axis as usize) < drives.len() {
        drives[axis as usize] = drive;
    }
}
