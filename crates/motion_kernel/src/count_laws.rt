// The counts of the rows of pasts: the contract of a function that does nothing.

ghost use Rattle.std.specs.Prelude.{List};
ghost use Rattle.motion_history.specs.Entries.{Entry};
ghost use Rattle.motion_history.specs.Setup.{Setup, IsSetup};
ghost use Rattle.motion_kernel.specs.Counted.{RowsAreCounted};
ghost use Rattle.motion_kernel.specs.Histories.{IsPast};
ghost use Rattle.motion_kernel.specs.kept.Machine.{AreWhole};

use crate::laws::machines_stay_kept;
use axis_core::axes_keep_their_definitions;
use motion_history::configurations_are_sound;
use plc_types::{counts_are_read_back, offsets_are_small};

/// In every cycle of a past, with the offset of each row every place within the limits of
/// its axis has a count of 32 bits in the increments of its drive, and what its drive reported is
/// one, whose place has 64 bits; the mode that its drive is given is 8, cyclic synchronous position
/// (IEC 61800-7-201, objects 607Ah, 6064h and 6060h). So a Home never moves an axis out of the
/// counts of its drive.
pub fn rows_are_counted()
    ensures { (s : Setup) (es : List Entry) → IsSetup s → AreWhole s → IsPast s es →
        RowsAreCounted s es }
{
    machines_stay_kept();
    axes_keep_their_definitions();
    configurations_are_sound();
    offsets_are_small();
    counts_are_read_back();
}
