// The last call that was made of a block.

ghost use Rattle.std.specs.Prelude.{◌≡◌, ◌≤◌, IfSome, List, length};
ghost use Rattle.plc_program.specs.Programs.{IsTask};
ghost use Rattle.task_run.specs.Standing.{IsInside, IsPlace, Stands};
ghost use Rattle.task_run.specs.Tasks as spec;
ghost use Rattle.task_run.specs.Runs.{until_again};

use crate::place::{ProgramPosition, Repetition};
use plc_program::Instruction;
use plc_types::Inputs;

// The inputs of a call of the block, if a line is one.
fn inputs_in(block: u16, line: &Instruction) -> Option<Inputs>
    ensures { result ≡ spec.inputs_in block line.now }
{
    match line {
        Instruction::Call { instance, inputs } if *instance == block => Some(*inputs),
        _ => None,
    }
}

// The inputs of the last call of the block in some lines.
fn last_in(block: u16, lines: &[Instruction]) -> Option<Inputs>
    ensures { result ≡ spec.last_call block lines.now }
{
    let mut found = None;
    for line in lines {
        found = inputs_in(block, line).or(found);
    }
    found
}

// The same in the lines up to the first `again`.
fn last_in_body(block: u16, lines: &[Instruction]) -> Option<Inputs>
    ensures { result ≡ spec.last_call block (until_again lines.now) }
{
    let mut found = None;
    for line in lines {
        if matches!(line, Instruction::Again) {
            return found;
        }
        found = inputs_in(block, line).or(found);
    }
    found
}

// The inputs of the last call that was made of the block, in a repeat.
fn last_inside(block: u16, lines: &[Instruction], line: u32, pass: Repetition) -> Option<Inputs>
    requires task { IsTask lines.now }
    requires place { (passed : List Instruction) × (to_come : List Instruction) ×
        IsInside lines.now line pass passed to_come }
    ensures { (passed to_come : List Instruction) →
        IsInside lines.now line pass passed to_come → result ≡ spec.last_call block passed }
{
    let line = line as usize;
    if pass.made == 0 {
        return last_in(block, &lines[..line]);
    }
    let start = pass.start as usize;
    let before_line = &lines[..line];
    let in_this_pass = last_in(block, &before_line[start..]);
    let in_the_pass_before = last_in_body(block, &lines[line..]);
    let before = last_in(block, &lines[..start]);
    in_this_pass.or(in_the_pass_before.or(before))
}

/// The inputs of the last call that was made of the block, at this place.
pub fn last_call(block: u16, lines: &[Instruction], place: ProgramPosition) -> Option<Inputs>
    requires task { IsTask lines.now }
    requires place { IsPlace lines.now place }
    ensures { (passed to_come : List Instruction) → Stands lines.now place passed to_come →
        result ≡ spec.last_call block passed }
{
    match place.pass {
        Some(pass) => last_inside(block, lines, place.line, pass),
        None => last_in(block, &lines[..place.line as usize]),
    }
}
