// The commands: each sets what is wanted, in any cycle.

ghost use Rattle.std.specs.Prelude.{◌≡◌, ◌≢◌, ◌↔◌, ◌≤◌};
ghost use Rattle.otg.specs.Open.{IsOpen};

use crate::generator::Otg;
use crate::opening::{INVALID, OK, is_open};
use jerk_core::JerkRates;

/// Moves to a target by the rates `v`, `a`, `d` and `j`. A target outside the limits is gone for as
/// far as they allow.
#[unsafe(no_mangle)]
pub extern "C" fn otg_move(otg: &mut Otg, target: i64, v: u64, a: u64, d: u64, j: u64) -> u32
    ensures opened { IsOpen otg.old → IsOpen otg.new }
    ensures code { (result ≡ 0) ↔ IsOpen (record otg.old { target = target; v = v; a = a; d = d; j = j; kind = 1 }) }
    ensures set { result ≡ 0 → otg.new ≡ record otg.old { target = target; v = v; a = a; d = d; j = j; kind = 1 } }
    ensures codes { result ≤ 1 }
    ensures same { result ≢ 0 → otg.new ≡ otg.old }
{
    let wanted = commanded(otg, target, JerkRates { v, a, d, j }, 1);
    set(otg, wanted)
}

/// Goes on with a velocity, by the rates `a`, `d` and `j`.
#[unsafe(no_mangle)]
pub extern "C" fn otg_velocity(otg: &mut Otg, velocity: i64, a: u64, d: u64, j: u64) -> u32
    ensures opened { IsOpen otg.old → IsOpen otg.new }
    ensures code { (result ≡ 0) ↔ IsOpen (record otg.old { target = velocity; a = a; d = d; j = j; kind = 2 }) }
    ensures set { result ≡ 0 → otg.new ≡ record otg.old { target = velocity; a = a; d = d; j = j; kind = 2 } }
    ensures codes { result ≤ 1 }
    ensures same { result ≢ 0 → otg.new ≡ otg.old }
{
    let rates = JerkRates { v: otg.v, a, d, j };
    let wanted = commanded(otg, velocity, rates, 2);
    set(otg, wanted)
}

/// Halts by the rates `d` and `j`.
#[unsafe(no_mangle)]
pub extern "C" fn otg_halt(otg: &mut Otg, d: u64, j: u64) -> u32
    ensures opened { IsOpen otg.old → IsOpen otg.new }
    ensures code { (result ≡ 0) ↔ IsOpen (record otg.old { d = d; j = j; kind = 0 }) }
    ensures set { result ≡ 0 → otg.new ≡ record otg.old { d = d; j = j; kind = 0 } }
    ensures codes { result ≤ 1 }
    ensures same { result ≢ 0 → otg.new ≡ otg.old }
{
    let wanted = Otg {
        d,
        j,
        kind: 0,
        ..*otg
    };
    set(otg, wanted)
}

// The generator with another command.
fn commanded(otg: &Otg, target: i64, rates: JerkRates, kind: u32) -> Otg
    ensures { result ≡ record otg.now { target = target; v = rates.v; a = rates.a; d = rates.d; j = rates.j; kind = kind } }
{
    Otg {
        target,
        v: rates.v,
        a: rates.a,
        d: rates.d,
        j: rates.j,
        kind,
        ..*otg
    }
}

// Sets a command, where the generator is open and the command in its ranges.
fn set(otg: &mut Otg, wanted: Otg) -> u32
    ensures code { (result ≡ 0) ↔ IsOpen wanted }
    ensures set { result ≡ 0 → otg.new ≡ wanted }
    ensures opened { result ≡ 0 → IsOpen otg.new }
    ensures codes { result ≤ 1 }
    ensures same { result ≢ 0 → otg.new ≡ otg.old }
{
    if !is_open(&wanted) {
        return INVALID;
    }
    *otg = wanted;
    OK
}
