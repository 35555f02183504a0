// What names of a bench name.

ghost use Rattle.std.specs.Prelude.{◌≡◌, ◌<◌, IfOk, length};
ghost use Rattle.line_text.specs.Reading.{Gives};
ghost use Rattle.bench_text.specs.Named as spec;

use line_text::LineFault;
use machine_words::{KnownBlocks, WRONG_NAME, task_at};
use motion_history::Builder;

/// The number of the task of this name.
pub fn task_named(machine: &Builder, name: &[u8]) -> Result<u8, LineFault>
    ensures value { Gives (λ n. n) (spec.task_named machine.now name.now) result }
    ensures within { IfOk result (λ n. n < length machine.now.tasks) }
{
    match task_at(machine, name) {
        Some(task) => Ok(task),
        None => Err(LineFault::Rule(WRONG_NAME)),
    }
}

/// The number of the block of this name.
pub fn block_named(
    known: &mut KnownBlocks,
    machine: &Builder,
    name: &[u8],
) -> Result<u16, LineFault>
    ensures value { Gives (λ n. n) (spec.block_named machine.now name.now) result }
    ensures within { IfOk result (λ n. n < length machine.now.blocks) }
{
    match known.block_at(machine, name) {
        Some(block) => Ok(block),
        None => Err(LineFault::Rule(WRONG_NAME)),
    }
}
