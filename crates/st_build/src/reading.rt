// Reading tasks in Structured Text.

ghost use Rattle.std.specs.Prelude.{◌≡◌, [], List, IfOk, OnOk, length};
ghost use Rattle.motion_history.specs.Setup.{IsSetup, Setup};
ghost use Rattle.st_check.specs.Reading.{reading_of};
ghost use Rattle.st_check.specs.Told.{IsWhole};
ghost use Rattle.st_build.specs.Reading.{IsBuilt, ReadsBy, ReadsSame};
ghost use Rattle.st_build.specs.Spelled.{IsStText};
ghost use Rattle.st_tree.specs.Fitting.{IsProgramOf};
ghost use Rattle.st_tree.specs.declared.program.Task.{Task};

use crate::program::program_of;
use motion_history::{Builder, TextFault};
use st_check::{Told, check_text};
use st_tree::StProgram;
use std::alloc::Global;
use std::mem;

/// The program that a text is for a machine, which gets its tasks and blocks. A text that is none
/// is refused at its first line that breaks a rule, by the first rule that it breaks there: S1 to
/// S6. A token that breaks S1 or S2 ends the reading. The machine may then hold some of the text's
/// tasks and blocks. It takes memory for what is open, for the names of the text, and for the
/// program.
pub fn read_st(alloc: Global, text: &[u8], config: &mut Builder) -> Result<StProgram, TextFault>
    requires tasks { config.old.tasks ≡ [] }
    // What is read is a program of the text.
    ensures found { IfOk result (λ p. IsStText config.old text.now p.tasks.items config.new) }
    // A program of the text is read, unless memory runs out: one that spells the same.
    ensures only { (tasks : List Task) → (after : Setup) →
        IsStText config.old text.now tasks after → ReadsSame tasks after result config.new }
    // A text that has none is refused so.
    ensures exact { ReadsBy (reading_of config.old text.now) result config.new }
    // The machine of what is read is whole and has its axes, and the program is one of it.
    ensures setup { OnOk result (IsSetup config.new) }
    ensures axes { OnOk result (length config.new.axes ≡ length config.old.axes) }
    ensures program { IfOk result (λ p. IsProgramOf config.new p.tasks.items) }
{
    let empty = Builder::open(alloc, 1, 1).map_err(|_| TextFault::OutOfMemory)?;
    let (machine, program) = read(alloc, text, mem::replace(config, empty));
    *config = machine;
    program
}

// The program that a text is, and the machine with its tasks and blocks.
fn read(alloc: Global, text: &[u8], machine: Builder) -> (Builder, Result<StProgram, TextFault>)
    requires tasks { machine.tasks ≡ [] }
    ensures exact { ReadsBy (reading_of machine text.now) result.1 result.0 }
    ensures setup { OnOk result.1 (IsSetup result.0) }
    ensures axes { OnOk result.1 (length result.0.axes ≡ length machine.axes) }
    ensures program { IfOk result.1 (λ p. IsProgramOf result.0 p.tasks.items) }
{
    let (machine, told) = check_text(alloc, text, machine);
    match told {
        Ok(told) => {
            let program = built(alloc, &machine, &told);
            (machine, program)
        }
        Err(fault) => (machine, Err(fault)),
    }
}

// The trees of what was reported for a machine.
fn built(alloc: Global, machine: &Builder, told: &Told) -> Result<StProgram, TextFault>
    requires { (first : Setup) × IsWhole first machine.now told.now.names.items told.now.parts.items }
    ensures built { IsBuilt told.now result }
    ensures setup { OnOk result (IsSetup machine.now) }
    ensures axes { (first : Setup) → IsWhole first machine.now told.now.names.items told.now.parts.items →
        OnOk result (length machine.now.axes ≡ length first.axes) }
    ensures program { IfOk result (λ p. IsProgramOf machine.now p.tasks.items) }
{
    let _blocks = machine.blocks().len();
    match program_of(alloc, told.names.as_slice(), told.parts.as_slice()) {
        Ok(program) => Ok(program),
        Err(_) => Err(TextFault::OutOfMemory),
    }
}
