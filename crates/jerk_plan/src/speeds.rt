// The wanted speeds of commands, counted in the direction of the motion.

ghost use Rattle.std.specs.Prelude.{◌≡◌, ℕ, Some, None, ◌+◌, ◌-◌, ◌*◌, ◌≤◌, min, nat_le, if◌then◌else◌};
ghost use Rattle.motion_numbers.specs.Run.{reach_of};
ghost use Rattle.jerk_core.specs.Rates.{AreJerkRates, IsKeptBy};
ghost use Rattle.jerk_plan.specs.Wanted.{IsSpeedOfMove, IsMoveOf, slowed_of, velocity_of};

use jerk_core::{Counter, JerkRates, braked, greatest_fall, safe_speed};
use motion_numbers::MOST_STEP;
use std::sync::ledger::Ledger;

/// The wanted speed of a move with the way `way` to its target, in internal units per cycle. A move
/// that can't stop before its target by its rates slows.
pub fn move_speed<L: Ledger>(
    rates: &JerkRates,
    way: u64,
    last: u64,
    speed: u64,
    looks: &mut Counter<L>,
) -> u64
    requires rates { AreJerkRates rates.now }
    requires last { last ≤ 2 * MOST_STEP }
    requires speed { speed ≤ MOST_STEP }
    ensures wanted { IsSpeedOfMove rates.now way last speed result }
    ensures small { result ≤ 2 * MOST_STEP }
    ensures cost { looks.new ≤ looks.old + 75 }
{
    match safe_speed(rates, way, last, speed, looks) {
        Some(safe) => safe,
        None => halt_speed(rates, last, speed),
    }
}

/// The speed of a move that can stop before its target by its rates; none where it can't.
pub fn own_speed<L: Ledger>(
    rates: &JerkRates,
    way: u64,
    last: u64,
    speed: u64,
    looks: &mut Counter<L>,
) -> Option<u64>
    requires rates { AreJerkRates rates.now }
    ensures found { (x : ℕ) → result ≡ Some x → IsMoveOf rates.now way last speed x }
    ensures none { result ≡ None → IsKeptBy rates.now way last speed → ⊥ }
    ensures cost { looks.new ≤ looks.old + 75 }
{
    if last > 2 * MOST_STEP || speed > MOST_STEP {
        return None;
    }
    safe_speed(rates, way, last, speed, looks)
}

/// The wanted speed of a halt.
#[tactic(auto, unfolding(crate::specs::Wanted::slowed_of))]
pub fn halt_speed(rates: &JerkRates, last: u64, speed: u64) -> u64
    requires rates { AreJerkRates rates.now }
    requires last { last ≤ 2 * MOST_STEP }
    requires speed { speed ≤ MOST_STEP }
    ensures value { result ≡ slowed_of rates.now last speed }
    ensures small { result ≤ 2 * MOST_STEP }
{
    braked(rates.d, rates.j, last, speed).min((2 * speed + rates.j).saturating_sub(last))
}

/// The wanted speed of a velocity command, toward the speed `wanted`.
#[tactic(auto, unfolding(crate::specs::Wanted::velocity_of))]
pub fn velocity_speed(rates: &JerkRates, wanted: u64, last: u64, speed: u64) -> u64
    requires rates { AreJerkRates rates.now }
    requires wanted { wanted ≤ MOST_STEP }
    requires last { last ≤ 2 * MOST_STEP }
    requires speed { speed ≤ MOST_STEP }
    ensures value { result ≡ velocity_of rates.now wanted last speed }
    ensures small { result ≤ 2 * MOST_STEP }
{
    let least = (2 * speed).saturating_sub(last + rates.j);
    let most = (2 * speed + rates.j).saturating_sub(last);
    least.max(most.min(toward(rates, wanted, speed)))
}

// The speed toward the wanted one, whatever the last change was.
fn toward(rates: &JerkRates, wanted: u64, speed: u64) -> u64
    requires rates { AreJerkRates rates.now }
    requires wanted { wanted ≤ MOST_STEP }
    requires speed { speed ≤ MOST_STEP }
    ensures value { result ≡ (if nat_le speed wanted then speed + min rates.now.a (reach_of (wanted - speed) rates.now.j)
        else speed - min rates.now.d (reach_of (speed - wanted) rates.now.j)) }
    ensures small { result ≤ 2 * MOST_STEP }
{
    if speed <= wanted {
        speed + greatest_fall(wanted - speed, rates.j, rates.a)
    } else {
        speed - greatest_fall(speed - wanted, rates.j, rates.d)
    }
}
