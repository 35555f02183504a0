// The calls of a bench.

ghost use Rattle.std.specs.Prelude.{◌≡◌};
ghost use Rattle.line_text.specs.Reading.{Gives};
ghost use Rattle.line_text.specs.Texts.{texts};
ghost use Rattle.bench_text.specs.Calls as spec;

use crate::bench::BenchLine;
use crate::name::block_named;
use line_text::{LineFault, broken_unless};
use machine_words::{Callee, KnownBlocks, Units, WRONG_COUNT, WRONG_NAME, inputs_by, is_off};
use motion_history::Builder;
use std::alloc::Global;

/// The call of a line.
#[tactic(auto, unfolding(crate::specs::Calls::call_meaning))]
pub fn call_of(
    alloc: Global,
    known: &mut KnownBlocks,
    machine: &Builder,
    words: &[&[u8]],
) -> Result<BenchLine, LineFault>
    ensures { Gives (λ l. l) (spec.call_meaning machine.now (texts words.now)) result }
{
    let [name, state, words @ ..] = words else {
        return Err(LineFault::Rule(WRONG_COUNT));
    };
    broken_unless(!is_off(state) || words.is_empty(), WRONG_COUNT)?;
    let instance = block_named(known, machine, name)?;
    let Some(block) = machine.blocks().get(instance as usize) else {
        return Err(LineFault::Rule(WRONG_NAME));
    };
    let callee = Callee {
        machine,
        block,
        units: Units::Internal,
    };
    let inputs = inputs_by(alloc, &callee, state, words)?;
    Ok(BenchLine::Call { instance, inputs })
}
