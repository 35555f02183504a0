// Braking with limited jerk, in the direction of the motion.

ghost use Rattle.std.specs.Prelude.{◌≡◌, ◌↔◌, IsTrue, ◌+◌, ◌-◌, ◌*◌, ◌≤◌};
ghost use Rattle.motion_numbers.specs.Run.{run_of};
ghost use Rattle.jerk_core.specs.Braking.{braked_of, way_of};

use crate::reaching::greatest_fall;
use crate::rest::way_to_rest;
use motion_numbers::{Counter, MOST_STEP};
use std::sync::ledger::Ledger;

/// The least speed that may follow the speeds `last` and `speed`, in internal units per cycle: it
/// falls by at most `d`, and its change by at most `j`, so that its fall can be taken back.
pub fn braked(d: u64, j: u64, last: u64, speed: u64) -> u64
    requires d_most { d ≤ MOST_STEP }
    requires j_least { 1 ≤ j }
    requires j_most { j ≤ MOST_STEP }
    requires last { last ≤ 2 * MOST_STEP }
    requires speed { speed ≤ MOST_STEP }
    ensures value { result ≡ braked_of d j last speed }
{
    let bend = last + j;
    if bend < speed {
        speed + (speed - bend)
    } else {
        speed - greatest_fall(speed, j, d.min(bend - speed))
    }
}

/// Whether the way to rest by braking fits the room. One look.
pub fn rest_fits<L: Ledger>(
    d: u64,
    j: u64,
    last: u64,
    speed: u64,
    room: u64,
    looks: &mut Counter<L>,
) -> bool
    requires d_least { 1 ≤ d }
    requires d_most { d ≤ MOST_STEP }
    requires j_least { 1 ≤ j }
    requires j_most { j ≤ MOST_STEP }
    requires last { last ≤ 2 * MOST_STEP }
    requires tops { speed + run_of (speed - last - j) j ≤ MOST_STEP }
    ensures value { IsTrue result ↔ (way_of d j last speed ≤ room) }
    ensures look { looks.new ≡ looks.old + 1 }
{
    way_to_rest(d, j, last, speed, looks) <= room as u128
}
