// A command that is wanted of an axis or a group.

use crate::rates::Rates;
use plc_types::{BlockKind, BufferMode};

/// Whom a command follows.
#[derive(Clone, Copy, Debug, PartialEq, Eq)]
pub enum Follow {
    /// It follows no master.
    None,
    /// A gear: n steps for d steps of the master (PLCopen Motion Control Part 1, MC_GearIn).
    Gear {
        /// The number of the master axis.
        master: u8,
        /// The numerator.
        n: i64,
        /// The denominator.
        d: i64,
    },
    /// A cam (PLCopen Motion Control Part 1, MC_CamIn).
    Cam {
        /// The number of the master axis.
        master: u8,
        /// The number of the cam table, from 1.
        table: u16,
    },
}

/// A command of a function block, active or waiting.
#[derive(Clone, Copy, Debug, PartialEq, Eq)]
pub struct Wanted {
    pub kind: BlockKind,
    /// The number of the instance that reports its end, and None where none does.
    pub owner: Option<u16>,
    /// The target in internal units, and None where it isn't fixed.
    pub target: Option<i64>,
    /// The positions of the call in internal units: one for an axis, one per axis in the group's
    /// order for a group.
    pub targets: [i64; 6],
    pub rates: Rates,
    pub mode: BufferMode,
    pub follow: Follow,
}

/// No command: what a record of the pool has before its first one.
pub(crate) const UNUSED: Wanted = Wanted {
    kind: BlockKind::Power,
    owner: None,
    target: None,
    targets: [0; 6],
    rates: Rates { v: 0, a: 0, d: 0 },
    mode: BufferMode::Aborting,
    follow: Follow::None,
};

ghost use Rattle.std.specs.Prelude.{◌≡◌};
ghost use Rattle.command_pool.specs.Waiting as spec;

/// Takes the owner away from a command where it is this one.
pub(crate) fn detach_from(wanted: &mut Wanted, owner: u16)
    ensures { wanted.new ≡ spec.detached owner wanted.old }
{
    wanted.owner = without(wanted.owner, owner);
}

/// An owner, and None where it is the one that is gone.
pub fn without(owner: Option<u16>, gone: u16) -> Option<u16>
    ensures { result ≡ spec.without gone owner }
{
    match owner {
        Some(owner) => { if owner == gone { None } else { Some(owner) } }
        None => None,
    }
}
