// What went through a ring, once its ends are finished.

ghost use Rattle.std.specs.Prelude.{◌≡◌, ◌<◌, ◌^◌, length, slice_get};
ghost use Rattle.std.specs.Option.{option_copied};

use crate::{DriveIn, DriveOut};
use std::marker::Model;

/// How many outputs the kernel's end sent, and how many answers it took.
#[derive(Clone, Copy, Debug, PartialEq, Eq)]
pub struct KernelLog {
    pub sent: u32,
    pub taken: u32,
}

/// How many answers the drive's end sent, how many outputs it took, these outputs, and the last
/// answer.
#[derive(Drop)]
pub struct DriveLog {
    pub sent: u32,
    pub taken: u32,
    pub took: OutList,
    pub last: DriveIn,
}

/// Outputs in their order. Contracts see it as their list.
#[derive(Drop)]
pub struct OutList {
    outputs: Vec<DriveOut>,
}

impl Model for OutList {
    ghost use Rattle.std.specs.Prelude.{List, length, ◌<◌, ◌^◌};
    ghost use Rattle.plc_types.specs.declared.drive.DriveOut.{DriveOut};

    ghost Value = { List DriveOut };

    ghost view = { λ l. l.outputs.items };

    ghost invariant = { λ l. length l.outputs.items < 2 ^ 32 };
}

impl OutList {
    // The list of these outputs.
    pub(crate) fn of(outputs: Vec<DriveOut>) -> OutList
        requires { length outputs.items < 2 ^ 32 }
        ensures { result ≡ outputs.items }
    {
        OutList { outputs }
    }

    /// How many outputs there are.
    pub fn len(&self) -> u32
        ensures { result ≡ length self.now }
    {
        self.outputs.len() as u32
    }

    /// The output at a place counted from 0.
    pub fn get(&self, place: u32) -> Option<&DriveOut>
        ensures { option_copied result ≡ slice_get self.now place }
    {
        self.outputs.get(place as usize)
    }
}
