// Operands.

ghost use Rattle.std.specs.Prelude.{◌≡◌};
ghost use Rattle.iec_operands.specs.Operands as spec;

use iec_tree::Elementary;

/// What waits for what it is an operand of.
#[derive(Clone, Copy)]
pub enum Operand {
    /// A value of this type. Where it is a constant, this is the value.
    Value { of: Elementary, value: i64 },
    /// The arguments of a function begin.
    Arguments,
}

/// The type of an operand.
pub fn type_of(operand: Operand) -> Elementary
    ensures { result ≡ spec.type_of operand }
{
    match operand {
        Operand::Value { of, .. } => of,
        Operand::Arguments => Elementary::Dint,
    }
}

/// The value of an operand.
pub fn value_of(operand: Operand) -> i64
    ensures { result ≡ spec.value_of operand }
{
    match operand {
        Operand::Value { value, .. } => value,
        Operand::Arguments => 0,
    }
}
