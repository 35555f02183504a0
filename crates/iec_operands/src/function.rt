// The arguments of a function.

ghost use Rattle.std.specs.Prelude.{◌≡◌, ◌++◌, IfOk, OnOk, reverse};
ghost use Rattle.iec_operands.specs.Expressions as spec;

use crate::operand::Operand;
use iec_grammar::{Pile, push};
use iec_tree::Elementary;
use motion_numbers::OutOfMemory;
use std::alloc::Global;

// Takes the operands behind the last mark off, and the mark: their types, the last first.
fn take_arguments(held: &mut Pile<Operand>, types: &mut Vec<Elementary>) -> Result<(), OutOfMemory>
    ensures types { OnOk result (types.new.items ≡ types.old.items ++ spec.arguments_of held.old) }
    ensures before { OnOk result (held.new ≡ spec.before_arguments held.old) }
{
    while let Some(operand) = held.pop() {
        match operand {
            Operand::Value { of, .. } => push(types, of)?,
            Operand::Arguments => return Ok(()),
        }
    }
    Ok(())
}

/// Takes the operands behind the last mark off, and the mark: their types, the first first.
pub fn arguments_in(alloc: Global, held: &mut Pile<Operand>) -> Result<Vec<Elementary>, OutOfMemory>
    ensures types { IfOk result (λ ts. ts.items ≡ reverse (spec.arguments_of held.old)) }
    ensures before { OnOk result (held.new ≡ spec.before_arguments held.old) }
{
    let mut types = Vec::new(alloc);
    take_arguments(held, &mut types)?;
    types.reverse();
    Ok(types)
}
