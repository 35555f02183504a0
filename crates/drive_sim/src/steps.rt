// What a step of a simulated drive does to its parts.

ghost use Rattle.std.specs.Prelude.{◌≡◌, ◌&&◌, [], ◌∷◌, ◌++◌, pos, if◌then◌else◌};
ghost use Rattle.std.specs.Ordering.{int_eq};
ghost use Rattle.circular_buffer.specs.Buffer.{buffer, keep_last};
ghost use Rattle.drive_sim.specs.Faults.{RisesAbove, has_step};
ghost use Rattle.drive_sim.specs.Steps as spec;

use circular_buffer::HeapCircularBuffer;
use plc_types::{CYCLIC_SYNCHRONOUS_POSITION, DriveState};

/// Whether a step is one of the fault steps, which rise.
pub fn has_fault(faults: &[u32], step: u64) -> bool
    requires { RisesAbove 0 faults.now }
    ensures { result ≡ has_step step faults.now }
{
    match u32::try_from(step) {
        Ok(step) => faults.binary_search(&step).is_ok(),
        Err(_) => false,
    }
}

/// Whether a drive is in Operation enabled.
fn is_enabled(state: DriveState) -> bool
    ensures { result ≡ spec.is_enabled state }
{
    matches!(state, DriveState::OperationEnabled)
}

/// Whether a step between these states in this mode keeps its target.
pub fn keeps_target(before: DriveState, after: DriveState, mode: i8) -> bool
    ensures { result ≡ (spec.is_enabled before && spec.is_enabled after && int_eq mode (pos 8)) }
{
    is_enabled(before) && is_enabled(after) && mode == CYCLIC_SYNCHRONOUS_POSITION
}

/// The actual count after a step that keeps its target, which is the one kept as many steps before
/// as the ring has room or the earlier count where fewer were kept; or that forgets those kept. A
/// ring without room gives the target back at once.
pub fn followed(kept: &mut HeapCircularBuffer<i32>, keeps: bool, target: i32, actual: i32) -> i32
    ensures kept { kept.new ≡ buffer (if keeps
        then keep_last kept.old.capacity (kept.old.items ++ target ∷ [])
        else []) kept.old.capacity }
    ensures followed { result ≡ (if keeps
        then spec.followed kept.old.capacity kept.old.items target actual
        else actual) }
{
    if keeps {
        kept.push_back(target).unwrap_or(actual)
    } else {
        kept.clear();
        actual
    }
}
