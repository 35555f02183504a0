// Laws of the ends of a ring: each is the contract of a function that does nothing.

ghost use Rattle.std.specs.Prelude.{◌≡◌, ℕ, []};
ghost use mathlib.Core.List.{IsPrefix};
ghost use Rattle.setpoint_ring.specs.Sides.{KernelSide, DriveSide};
ghost use Rattle.setpoint_ring.specs.Beside.{AreBeside, AreNew};

/// What an end took is a beginning of what the other end sent, in its order and each once; it is
/// all of it where nothing is in the ring.
pub fn taken_items_are_the_first_sent()
    ensures outputs { (kernel : KernelSide) (drive : DriveSide) → AreBeside kernel drive →
        IsPrefix drive.taken kernel.sent }
    ensures all_outputs { (kernel : KernelSide) (drive : DriveSide) → AreBeside kernel drive →
        drive.waiting ≡ [] → drive.taken ≡ kernel.sent }
    ensures answers { (kernel : KernelSide) (drive : DriveSide) → AreBeside kernel drive →
        IsPrefix kernel.taken drive.sent }
    ensures all_answers { (kernel : KernelSide) (drive : DriveSide) → AreBeside kernel drive →
        kernel.waiting ≡ [] → kernel.taken ≡ drive.sent }
{}

/// The ends of a new ring are side by side, with nothing between them and all slots free.
pub fn new_ends_are_beside()
    ensures { (room : ℕ) (kernel : KernelSide) (drive : DriveSide) → AreNew room kernel drive →
        AreBeside kernel drive }
{}
