// A drive's fault: how a caller sees it, and how it resets the axis and its drive.

ghost use Rattle.std.specs.Prelude.{◌≡◌, IfOk, IsTrue, length};
ghost use Rattle.std.specs.Option.{option_map};
ghost use Rattle.plc_types.specs.declared.axis.AxisRow.{AxisRow};
ghost use Rattle.kernel_uses.specs.Uses as spec;
ghost use Rattle.motion_history.specs.LastCycles.{axis_row_in, last_cycle_of};
ghost use Rattle.kernel_uses.specs.Uses.{GoesOn};

use crate::full_history::NotMade;
use crate::one_axis::{last_row, run_block};
use drive_sim::Drive;
use motion_kernel::{Inputs, Kernel, Outputs};
use plc_types::INPUTS_OFF;

/// The Reset of the machine of one axis.
const RESET: u16 = 2;

/// The error of an axis in the last cycle, if there was one: 101 after a fault of its drive, and 0
/// where it has none.
pub fn error_of_axis(kernel: &Kernel, axis: u8) -> Option<u16>
    ensures { result ≡ option_map (λ (r : AxisRow). r.error)
        (axis_row_in axis (last_cycle_of kernel.now.history)) }
{
    match last_row(kernel, axis) {
        Some(row) => Some(row.error),
        None => None,
    }
}

/// Calls Reset to its end, which takes the cycles that the drive needs to leave its fault. The
/// outputs are those of the end.
pub fn reset_axis(kernel: &mut Kernel, drive: &mut Drive) -> Result<Outputs, NotMade>
    requires axis { length kernel.old.config.axes ≡ 1 }
    ensures ended { IfOk result (λ o. IsTrue (spec.has_ended o)) }
    ensures goes { GoesOn kernel.old kernel.new }
{
    let reset = Inputs {
        execute: true,
        ..INPUTS_OFF
    };
    run_block(kernel, drive, RESET, &reset)
}
