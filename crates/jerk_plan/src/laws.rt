// Laws of moves, velocities and halts: the clauses say them, and nothing runs.

ghost use Rattle.std.specs.Prelude.{◌≡◌, ℕ, ◌+◌, ◌-◌, ◌*◌, ◌≤◌};
ghost use Rattle.motion_numbers.specs.Run.{run_of};
ghost use Rattle.jerk_core.specs.declared.rates.JerkRates.{JerkRates};
ghost use Rattle.jerk_core.specs.Braking.{braked_of};
ghost use Rattle.jerk_core.specs.Rates.{AreJerkRates, AreRatesWithin, IsKeptBy, IsSafeBy};
ghost use Rattle.jerk_plan.specs.Wanted.{IsMoveSpeed, IsArrivedWithin, move_cycles_of, slowed_of, halted_of};
ghost use Rattle.jerk_plan.specs.Wanted.{velocity_of, velocity_after};

/// A move that can stop before its target never passes it, and can stop before it again.
pub fn moves_stay_before_their_targets()
    ensures before { (rates : JerkRates) (way w v x : ℕ) →
        IsMoveSpeed rates way w v x → x ≤ way }
    ensures again { (rates : JerkRates) (way w v x : ℕ) →
        IsMoveSpeed rates way w v x → IsKeptBy rates (way - x) v x }
{}

/// A move's speed is safe by the limits of its axis, so that it is taken: where its rates are
/// within the limits and its target within the room.
pub fn move_steps_are_safe()
    ensures { (own rates : JerkRates) (way room w v x : ℕ) →
        AreJerkRates own → AreRatesWithin own rates → way ≤ room →
        IsMoveSpeed own way w v x → IsSafeBy rates room w v x }
{}

/// A move that can stop before its target arrives there, at rest: from rest within as many cycles
/// as the greatest speed has for its way and the rates for speeding up, turning to a fall, slowing
/// and landing, each quotient rounded up, and 5. From whatever motion it arrives within l + k + g +
/// p + n + q + 5 cycles, where l of the greatest speed v have the way, k of j bring the gain of the
/// last cycle to a, g of a have v, p of j less 1 have a and d together, n of d have v, and q of j
/// have d; and within four more than the units of its way.
pub fn moves_arrive()
    ensures from_rest { (rates : JerkRates) (way : ℕ) →
        AreJerkRates rates → IsArrivedWithin (move_cycles_of rates way) rates way 0 0 }
    ensures by_rates { (rates : JerkRates) (way w v l k g p n q : ℕ) →
        AreJerkRates rates → IsKeptBy rates way w v →
        way ≤ l * rates.v → rates.a + w ≤ v + k * rates.j → rates.v ≤ g * rates.a →
        rates.a + rates.d ≤ p * (rates.j - 1) → rates.v ≤ n * rates.d → rates.d ≤ q * rates.j →
        IsArrivedWithin (l + k + g + p + n + q + 5) rates way w v }
    ensures by_way { (rates : JerkRates) (way w v : ℕ) →
        AreJerkRates rates → IsKeptBy rates way w v →
        IsArrivedWithin (way + 4) rates way w v }
    ensures by_units { (rates : JerkRates) (way w v : ℕ) →
        AreJerkRates rates → IsKeptBy rates way w v →
        IsArrivedWithin (3 * way + 2) rates way w v }
{}

/// A halt whose slowing can be taken back brakes by its rates, and rests: within cycles that its
/// rates count too, where k of j have a and d together and n of d have v.
pub fn halts_rest()
    ensures brakes { (rates : JerkRates) (room w v : ℕ) →
        AreJerkRates rates → IsKeptBy rates room w v →
        slowed_of rates w v ≡ braked_of rates.d rates.j w v }
    ensures rests { (rates : JerkRates) (room w v : ℕ) →
        AreJerkRates rates → IsKeptBy rates room w v →
        halted_of (v + (v - w) * (v - w)) rates w v ≡ 0 }
    ensures by_rates { (rates : JerkRates) (room w v k n : ℕ) →
        AreJerkRates rates → IsKeptBy rates room w v →
        rates.a + rates.d ≤ k * rates.j → rates.v ≤ n * rates.d →
        halted_of (k + n + 1) rates w v ≡ 0 }
{}

/// A velocity is reached, and then held. From any motion that keeps the rates it takes at most
/// k + n + 1 cycles, where k of j have a and d together, n of d have v less the wanted speed, and n
/// of a have the wanted one: so a faster motion slows to it. One that is not falling, and whose gain
/// can be taken back below the wanted speed, reaches it also within as many cycles as it is below,
/// and doesn't pass it; nor does a faster one whose fall can be taken back above it.
pub fn velocities_are_reached()
    ensures by_rates { (rates : JerkRates) (room wanted w v k n m : ℕ) →
        AreJerkRates rates → IsKeptBy rates room w v → wanted ≤ rates.v →
        rates.a + rates.d ≤ k * rates.j → rates.v - wanted ≤ n * rates.d → wanted ≤ n * rates.a →
        k + n + 1 ≤ m → velocity_after m rates wanted w v ≡ wanted }
    ensures reached { (rates : JerkRates) (wanted w v : ℕ) →
        AreJerkRates rates → w ≤ v → v + run_of (v - w - rates.j) rates.j ≤ wanted →
        velocity_after (wanted - v) rates wanted w v ≡ wanted }
    ensures within { (rates : JerkRates) (wanted w v : ℕ) →
        AreJerkRates rates → w ≤ v → v + run_of (v - w - rates.j) rates.j ≤ wanted →
        velocity_of rates wanted w v ≤ wanted }
    ensures above { (rates : JerkRates) (wanted w v : ℕ) →
        AreJerkRates rates → wanted ≤ v → w ≤ v + rates.d → run_of (w - v - rates.j) rates.j ≤ v - wanted →
        wanted ≤ velocity_of rates wanted w v }
{}

/// A velocity that is reached is held.
pub fn velocities_are_held()
    ensures { (rates : JerkRates) (wanted : ℕ) →
        AreJerkRates rates → velocity_of rates wanted wanted wanted ≡ wanted }
{}
