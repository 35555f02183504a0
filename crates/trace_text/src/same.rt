// Whether inputs of calls are the same.

ghost use Rattle.std.specs.Prelude.{◌≡◌, IsTrue};

use plc_types::Inputs;

/// Whether inputs are others.
pub fn are_same_inputs(inputs: &Inputs, others: &Inputs) -> bool
    ensures same { IsTrue result → inputs.now ≡ others.now }
    ensures exact { inputs.now ≡ others.now → IsTrue result }
{
    *inputs == *others
}
