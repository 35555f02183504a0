// The cycles of a bench, and the ends of its tasks.

ghost use Rattle.std.specs.Prelude.{◌≡◌};
ghost use Rattle.line_text.specs.Reading.{Gives};
ghost use Rattle.line_text.specs.Texts.{texts};
ghost use Rattle.bench_text.specs.Events as spec;

use crate::bench::BenchLine;
use crate::name::task_named;
use line_text::{LineFault, in_range};
use machine_words::{OUT_OF_RANGE, WRONG_COUNT, number};
use motion_history::{Builder, MOST_CYCLES};

/// How many cycles a line asks for.
#[tactic(auto, unfolding(crate::specs::Events::cycle_meaning))]
pub fn cycles_of(words: &[&[u8]]) -> Result<u32, LineFault>
    ensures { Gives (λ count. BenchLine.Cycles count) (spec.cycle_meaning (texts words.now)) result }
{
    match words {
        [] => Ok(1),
        [count] => {
            let count = number(count)?;
            in_range(1, MOST_CYCLES, OUT_OF_RANGE, count)
        }
        _ => Err(LineFault::Rule(WRONG_COUNT)),
    }
}

/// The task that a line ends.
#[tactic(auto, unfolding(crate::specs::Events::end_meaning))]
pub fn end_of(machine: &Builder, words: &[&[u8]]) -> Result<u8, LineFault>
    ensures { Gives (λ task. BenchLine.End task) (spec.end_meaning machine.now (texts words.now))
        result }
{
    let [name] = words else {
        return Err(LineFault::Rule(WRONG_COUNT));
    };
    task_named(machine, name)
}
