// Laws of kept motions and safe speeds: the clauses say them, and nothing runs.

ghost use Rattle.std.specs.Prelude.{◌≡◌, ◌↔◌, ◌⊎◌, ℕ, ◌+◌, ◌<◌, ◌≤◌, ℤ, ◌≤ℤ◌};
ghost use Rattle.kin_core.specs.Admissible.{IsKept};
ghost use Rattle.jerk_core.specs.declared.limits.JerkLimits.{JerkLimits};
ghost use Rattle.jerk_core.specs.declared.rates.JerkRates.{JerkRates};
ghost use Rattle.jerk_core.specs.Braking.{braked_of, way_of};
ghost use Rattle.jerk_core.specs.Rates.{AreJerkRates, AreRatesWithin, IsKeptBy, IsSafeBy};
ghost use Rattle.jerk_core.specs.Admissible.{AreJerkLimits, IsKeptByJerk, IsKeptUp, IsKeptDown, HasSafeSetpoint};

/// Which setpoints can be stopped with limited jerk, by a list of setpoints: exactly those whose
/// speed and change of speed can be taken back within the limits, and whose way to rest by braking
/// fits the room.
pub fn kept_is_stoppable()
    ensures by_numbers { (limits : JerkLimits) (first before now : ℤ) →
        AreJerkLimits limits → IsKeptByJerk limits first before now →
        IsKeptUp limits first before now ⊎ IsKeptDown limits first before now }
    ensures by_lists { (limits : JerkLimits) (first before now : ℤ) →
        AreJerkLimits limits → limits.axis.lo ≤ℤ now → now ≤ℤ limits.axis.hi →
        IsKeptUp limits first before now ⊎ IsKeptDown limits first before now →
        IsKeptByJerk limits first before now }
{}

/// What is kept with limited jerk is kept without it: an emergency brake by dmax alone is always
/// open.
pub fn kept_without_jerk()
    ensures { (limits : JerkLimits) (first before now : ℤ) →
        AreJerkLimits limits → IsKeptByJerk limits first before now →
        IsKept limits.axis before now }
{}

/// From every kept motion some setpoint is safe, so that whatever is wanted in each cycle, the axis
/// goes on within its limits for ever.
pub fn kept_motions_go_on()
    ensures { (limits : JerkLimits) (first before now : ℤ) →
        AreJerkLimits limits → IsKeptByJerk limits first before now →
        HasSafeSetpoint limits first before now }
{}

/// An axis that stands within its limits is kept.
pub fn standing_is_kept_by_jerk()
    ensures { (limits : JerkLimits) (now : ℤ) →
        AreJerkLimits limits → limits.axis.lo ≤ℤ now → now ≤ℤ limits.axis.hi →
        IsKeptByJerk limits now now now }
{}

/// The safe speeds after a kept motion are the whole numbers from the braked speed to a greatest
/// one.
pub fn safe_speeds_are_an_interval()
    ensures braking { (rates : JerkRates) (room w v : ℕ) →
        AreJerkRates rates → IsKeptBy rates room w v →
        IsSafeBy rates room w v (braked_of rates.d rates.j w v) }
    ensures least { (rates : JerkRates) (room w v x : ℕ) →
        AreJerkRates rates → IsSafeBy rates room w v x → braked_of rates.d rates.j w v ≤ x }
    ensures between { (rates : JerkRates) (room w v x y : ℕ) →
        AreJerkRates rates → IsKeptBy rates room w v → braked_of rates.d rates.j w v ≤ x → x ≤ y →
        IsSafeBy rates room w v y → IsSafeBy rates room w v x }
{}

/// What a command's own rates keep in the way to its target, the limits keep in the room: so a step
/// that is safe by them is safe by the limits, and is taken.
pub fn lesser_rates_are_kept()
    ensures kept { (own rates : JerkRates) (way room w v : ℕ) →
        AreJerkRates own → AreRatesWithin own rates → way ≤ room →
        IsKeptBy own way w v → IsKeptBy rates room w v }
    ensures safe { (own rates : JerkRates) (way room w v x : ℕ) →
        AreJerkRates own → AreRatesWithin own rates → way ≤ room →
        IsSafeBy own way w v x → IsSafeBy rates room w v x }
{}

/// From rest the speed 1 is safe wherever there is room for it.
pub fn rest_can_be_left()
    ensures { (rates : JerkRates) (room : ℕ) →
        AreJerkRates rates → 0 < room → IsSafeBy rates room 0 0 1 }
{}

/// The way to rest is the braked speed and the way to rest from there; there is none from rest.
pub fn ways_unfold()
    ensures unfolds { (d j w v : ℕ) → 0 < d → 0 < j →
        way_of d j w v ≡ braked_of d j w v + way_of d j v (braked_of d j w v) }
    ensures rests { (d j w : ℕ) → 0 < d → 0 < j → way_of d j w 0 ≡ 0 }
{}
