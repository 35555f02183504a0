// A run of code up to its next call, or to its end.

ghost use Rattle.std.specs.Prelude.{◌≡◌, ◌<◌, ◌≤◌, ◌+◌, ◌-◌, ℕ, List, Some, min, length, slice_get, vec_len, vec_capacity};
ghost use Rattle.machine_words.specs.Units.{IsCycle};
ghost use Rattle.st_exec.specs.Standing.{Advances, MayRun, Stops};
ghost use Rattle.st_exec.specs.declared.instruction.Instruction.{Instruction};

use crate::instruction::Instruction;
use crate::machine::Machine;

/// Where a run of code stands.
#[derive(Clone, Copy)]
pub struct Stop {
    /// The number of the instruction that it stands at.
    pub place: usize,
    /// The block that is called there; none at the code's end.
    pub asked: Option<u16>,
}

// The place after an instruction that passes some of those after it, in code of this length.
fn place_behind(place: usize, passed: usize, length: usize) -> usize
    requires { place < length }
    ensures { result ≡ place + 1 + min passed (length - (place + 1)) }
{
    place + 1 + passed.min(length - (place + 1))
}

// The instruction at a place, if there is one.
fn instruction_at(code: &[Instruction], place: usize) -> Option<Instruction>
    ensures { result ≡ slice_get code.now place }
{
    code.get(place).copied()
}

/// Runs code from a place up to its next call, or to its end, where a cycle has this many
/// microseconds.
pub fn walk(cycle_us: u32, code: &[Instruction], machine: &mut Machine, place: usize) -> Stop
    requires cycle { IsCycle cycle_us }
    requires run { MayRun cycle_us code.now place machine.old }
    ensures advances { Advances cycle_us code.now place machine.old result.place machine.new }
    ensures stops { Stops code.now result }
{
    let mut place = place;
    while place < code.len() {
        match instruction_at(code, place) {
            Some(Instruction::Do(act)) => {
                let passed = machine.perform(cycle_us, act);
                place = place_behind(place, passed, code.len());
            }
            Some(Instruction::Ask(instance)) => {
                return Stop {
                    place,
                    asked: Some(instance),
                };
            }
            None => return Stop { place, asked: None },
        }
    }
    Stop { place, asked: None }
}
