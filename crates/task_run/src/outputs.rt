// What the outputs of a block say of a wait.

ghost use Rattle.std.specs.Prelude.{◌≡◌};
ghost use Rattle.task_run.specs.Tasks as spec;

use plc_program::Instruction;
use plc_types::{Flag, Outputs, is_shown};

// Whether a reply ends a wait: it shows the flag, aborted or an error.
#[tactic(auto, unfolding(crate::specs::Tasks::ends_wait))]
fn ends_wait(flag: Flag, outputs: &Outputs) -> bool
    ensures { result ≡ spec.ends_wait flag outputs.now }
{
    is_shown(flag, outputs) || outputs.aborted || outputs.error
}

/// Whether a reply to a call that a line made leads to the next line.
pub fn is_passed(line: &Instruction, outputs: &Outputs) -> bool
    ensures { result ≡ spec.is_passed line.now outputs.now }
{
    match line {
        Instruction::Wait { flag, .. } => ends_wait(*flag, outputs),
        _ => true,
    }
}
