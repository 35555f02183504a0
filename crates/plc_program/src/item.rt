// The blocks of a program.

ghost use Rattle.line_text.specs.Reading.{Takes};
ghost use Rattle.line_text.specs.Texts.{texts};
ghost use Rattle.plc_program.specs.Lines as spec;

use line_text::LineFault;
use machine_words::{WRONG_COUNT, free_name, kind_of, object_named, refusal_of};
use motion_history::{Builder, TraceVersion};

/// Adds the block of a line of a program of this version to a task.
#[tactic(auto, unfolding(crate::specs::Lines::block_meaning))]
pub fn add_block(
    version: TraceVersion,
    machine: &mut Builder,
    task: u8,
    words: &[&[u8]],
) -> Result<(), LineFault>
    ensures { Takes (spec.block_meaning version machine.old task (texts words.now))
        machine.new result }
{
    let [name, kind, object] = words else {
        return Err(LineFault::Rule(WRONG_COUNT));
    };
    free_name(machine, name)?;
    let kind = kind_of(version, kind)?;
    let object = object_named(machine, kind, object)?;
    match machine.block(name, task, kind, object) {
        Ok(_) => Ok(()),
        Err(fault) => Err(refusal_of(fault)),
    }
}
