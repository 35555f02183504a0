// The drives' answers of a cycle.

ghost use Rattle.std.specs.Prelude.{◌≡◌, ◌<◌, ◌++◌, ◌∷◌, [], ℕ, length, map, pos, slice_index_or, slice_set, All};
ghost use Rattle.plc_types.specs.Counts.{IsCount};
ghost use Rattle.plc_types.specs.declared.drive.DriveIn.{DriveIn};
ghost use Rattle.motion_kernel.specs.looks.DriveAnswers as spec;

use plc_types::{DriveIn, NO_ANSWER};

/// The drive's answer for an axis.
pub fn answer_at(ins: &[DriveIn], axis: u8) -> DriveIn
    ensures { result ≡ spec.answer_at ins.now axis }
{
    match ins.get(axis as usize) {
        Some(input) => *input,
        None => NO_ANSWER,
    }
}

// The count that a drive reports: it has 32 bits.
fn count_of(input: &DriveIn) -> i32
    ensures count { result ≡ input.now.actual }
    ensures bits { IsCount result }
{
    input.actual
}

/// The counts that the drives report have 32 bits each.
pub fn counts_have_32_bits(ins: &[DriveIn])
    ensures { All (λ (d : DriveIn). IsCount d.actual) ins.now }
{
    for input in ins {
        let _ = count_of(input);
    }
}
