// What names of a program name.

ghost use Rattle.std.specs.Prelude.{◌≡◌};
ghost use Rattle.line_text.specs.Reading.{Gives};
ghost use Rattle.plc_program.specs.Named as spec;

use line_text::{LineFault, broken_unless};
use machine_words::{WRONG_NAME, block_at};
use motion_history::Builder;

/// The number of the block of this name, which is one of this task.
#[tactic(auto, unfolding(crate::specs::Named::block_named))]
pub fn block_named(machine: &Builder, task: u8, name: &[u8]) -> Result<u16, LineFault>
    ensures { Gives (λ n. n) (spec.block_named machine.now task name.now) result }
{
    let Some(number) = block_at(machine, name) else {
        return Err(LineFault::Rule(WRONG_NAME));
    };
    let Some(block) = machine.blocks().get(number as usize) else {
        return Err(LineFault::Rule(WRONG_NAME));
    };
    broken_unless(block.task == task, WRONG_NAME)?;
    Ok(number)
}
