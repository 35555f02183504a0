// Why a plant doesn't run.

ghost use Rattle.std.specs.Prelude.{◌≡◌, ◌↔◌};
ghost use Rattle.motion_plant.specs.declared.fault.PlantFault.TheVariants.{ThreadRefused};

use outside::StartFault;

/// Why a plant didn't run.
#[derive(Clone, Copy, Debug, PartialEq, Eq)]
pub enum PlantFault {
    /// A thread was refused.
    ThreadRefused,
    /// No memory was left.
    OutOfMemory,
}

/// The fault of a plant whose job wasn't started.
pub fn fault_of(fault: StartFault) -> PlantFault
    ensures refused { (result ≡ ThreadRefused) ↔ (fault ≡ StartFault.Refused) }
{
    match fault {
        StartFault::Refused => PlantFault::ThreadRefused,
        StartFault::OutOfMemory => PlantFault::OutOfMemory,
    }
}
