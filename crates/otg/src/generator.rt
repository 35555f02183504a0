// What C holds.

ghost use Rattle.std.specs.Prelude.{◌≡◌};
ghost use Rattle.otg.specs.Open.{limits_of, rates_of_command, setpoints_of};

use jerk_core::{JerkLimits, JerkRates, Setpoints};
use plc_types::Limits;

/// A generator. C fills its limits, and from [`otg_open`](crate::otg_open) on only the library
/// changes it. All is in internal units, and in units per cycle, per cycle^2 and per cycle^3.
#[repr(C)]
#[derive(Clone, Copy)]
pub struct Otg {
    /// The least setpoint, at least -10^15.
    pub lo: i64,
    /// The greatest setpoint, from `lo` to 10^15.
    pub hi: i64,
    /// The greatest step, 1 to 10^10.
    pub vmax: i64,
    /// The greatest gain of speed per cycle, 1 to 10^10.
    pub amax: i64,
    /// The greatest loss of speed per cycle, from `amax` to 10^10.
    pub dmax: i64,
    /// The greatest change of such a gain or loss, 2 to 10^10.
    pub jmax: i64,
    /// The setpoint two steps ago.
    pub first: i64,
    /// The setpoint one step ago.
    pub before: i64,
    /// The setpoint of this cycle.
    pub current: i64,
    /// The target of a move, or the velocity that is wanted.
    pub target: i64,
    /// The command's own rates.
    pub v: u64,
    pub a: u64,
    pub d: u64,
    pub j: u64,
    /// The command: 0 a halt, 1 a move, 2 a velocity.
    pub kind: u32,
}

// The limits as the crates below have them.
pub(crate) fn limits(otg: &Otg) -> JerkLimits
    ensures { result ≡ limits_of otg.now }
{
    JerkLimits {
        axis: Limits {
            lo: otg.lo,
            hi: otg.hi,
            vmax: otg.vmax,
            amax: otg.amax,
            dmax: otg.dmax,
        },
        jmax: otg.jmax,
    }
}

// The last three setpoints.
pub(crate) fn setpoints(otg: &Otg) -> Setpoints
    ensures { result ≡ setpoints_of otg.now }
{
    Setpoints {
        first: otg.first,
        before: otg.before,
        current: otg.current,
    }
}

// The rates of the command.
pub(crate) fn own_rates(otg: &Otg) -> JerkRates
    ensures { result ≡ rates_of_command otg.now }
{
    JerkRates {
        v: otg.v,
        a: otg.a,
        d: otg.d,
        j: otg.j,
    }
}
