// A law of what is given: the contract of a function that does nothing.

ghost use Rattle.std.specs.Prelude.{◌≡◌, ◌↔◌, ℕ};
ghost use Rattle.plc_types.specs.declared.kind.BlockKind.{BlockKind};
ghost use Rattle.plc_types.specs.declared.kind.BufferMode.{BufferMode};
ghost use Rattle.plc_types.specs.Inputs.{AreInputs};
ghost use Rattle.motion_c.specs.Given.{inputs_in, mode_given};
ghost use Rattle.motion_c.specs.Ranges.{AreInRange};
ghost use Rattle.motion_c.specs.declared.given.MotionInputs.{MotionInputs};
ghost use Rattle.std.specs.Prelude.{Some};

/// What a struct gives are inputs of the kind exactly where each number that the kind takes is at
/// most 10^18 in size. Nothing runs.
pub fn given_inputs_are_in_range()
    ensures { (kind : BlockKind) (axes : ℕ) (given : MotionInputs) (mode : BufferMode) →
        mode_given kind given.mode ≡ Some mode →
        (AreInputs kind axes (inputs_in kind axes given mode) ↔ AreInRange kind axes given) }
{}
