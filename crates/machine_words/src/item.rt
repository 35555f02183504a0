// The items of a bench or a program.

ghost use Rattle.std.specs.Prelude.{◌≡◌, if◌then◌else◌, None, Some};
ghost use Rattle.line_text.specs.Reading.{Gives, Takes};
ghost use Rattle.line_text.specs.Texts.{texts};
ghost use Rattle.motion_history.specs.Faults as faults;
ghost use Rattle.motion_history.specs.declared.fault.ConfigFault.{ConfigFault};
ghost use Rattle.machine_words.specs.Items as spec;
ghost use Rattle.machine_words.specs.Rules as rules;

use crate::rule::{WRONG_COUNT, refusal_of};
use line_text::LineFault;
use motion_history::Builder;

/// Whether a new item may have this name.
pub fn free_name(machine: &Builder, name: &[u8]) -> Result<(), LineFault>
    ensures { Gives (λ u. u)
        (rules.broken_by rules.rule_of (faults.name_fault machine.now name.now)) result }
{
    match machine.name_fault(name) {
        None => Ok(()),
        Some(fault) => Err(refusal_of(fault)),
    }
}

/// Adds the task of a line.
#[tactic(auto, unfolding(crate::specs::Items::task_meaning))]
pub fn add_task(machine: &mut Builder, words: &[&[u8]]) -> Result<(), LineFault>
    ensures { Takes (spec.task_meaning machine.old (texts words.now)) machine.new result }
{
    let [name] = words else {
        return Err(LineFault::Rule(WRONG_COUNT));
    };
    match machine.task(name) {
        Ok(_) => Ok(()),
        Err(fault) => Err(refusal_of(fault)),
    }
}

/// Whether the machine has an axis, a task and a block.
pub fn is_whole(machine: &Builder) -> bool
    ensures { faults.whole_fault machine.now ≡ (if result then None else Some ConfigFault.TooFew) }
{
    1 <= machine.axes().len() && 1 <= machine.tasks().len() && 1 <= machine.blocks().len()
}
