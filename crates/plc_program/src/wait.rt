// The waits and repeats of a program.

ghost use Rattle.std.specs.Prelude.{◌≡◌, ◌≤◌, IfOk};
ghost use Rattle.line_text.specs.Reading.{Gives};
ghost use Rattle.line_text.specs.Texts.{texts};
ghost use Rattle.plc_program.specs.Lines as spec;
ghost use Rattle.plc_program.specs.Programs as programs;

use crate::name::block_named;
use crate::program::{Instruction, MOST_TIMES};
use crate::reader::ProgramReader;
use line_text::{LineFault, broken_unless, in_range};
use machine_words::{NO_VALUE, OUT_OF_RANGE, WRONG_COUNT, number};
use plc_types::flag_named;

// Whether an instruction calls the block with inputs of its own.
fn is_call_of(block: u16, line: &Instruction) -> bool
    ensures { result ≡ programs.is_call_of block line.now }
{
    match line {
        Instruction::Call { instance, .. } => *instance == block,
        _ => false,
    }
}

// Whether one of the instructions does.
fn is_called(block: u16, lines: &[Instruction]) -> bool
    ensures { result ≡ programs.is_called block lines.now }
{
    lines.iter().any(|line| is_call_of(block, line))
}

/// The wait of a line.
#[tactic(auto, unfolding(crate::specs::Lines::wait_meaning))]
pub fn wait_of(reader: &ProgramReader, words: &[&[u8]]) -> Result<Instruction, LineFault>
    ensures { Gives (λ l. l) (spec.wait_meaning reader.now (texts words.now)) result }
{
    let [name, flag] = words else {
        return Err(LineFault::Rule(WRONG_COUNT));
    };
    let instance = block_named(&reader.machine, reader.task(), name)?;
    let Some(flag) = flag_named(flag) else {
        return Err(LineFault::Rule(NO_VALUE));
    };
    broken_unless(is_called(instance, reader.lines.as_slice()), OUT_OF_RANGE)?;
    Ok(Instruction::Wait { instance, flag })
}

/// The repeat of a line.
#[tactic(auto, unfolding(crate::specs::Lines::repeat_meaning))]
pub fn repeat_of(words: &[&[u8]]) -> Result<Instruction, LineFault>
    ensures { Gives (λ l. l) (spec.repeat_meaning (texts words.now)) result }
{
    let [count] = words else {
        return Err(LineFault::Rule(WRONG_COUNT));
    };
    let count = number(count)?;
    let count = in_range(1, MOST_TIMES, OUT_OF_RANGE, count)?;
    Ok(Instruction::Repeat { count })
}
