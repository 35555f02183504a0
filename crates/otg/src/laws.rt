// Laws of steps one after another: the clauses say them, and nothing runs.

ghost use Rattle.std.specs.Prelude.{◌≡◌, ℕ, ◌+◌, ◌-◌, ◌*◌, ◌<◌, ◌≤◌, zero, ◌-ℤ◌, unsigned_abs};
ghost use Rattle.jerk_plan.specs.Wanted.{IsArrivedWithin, move_cycles_of};
ghost use Rattle.otg.specs.declared.generator.Otg.{Otg};
ghost use Rattle.otg.specs.Open.{rates_of_command};
ghost use Rattle.otg.specs.Runs.{IsRun, IsDone, IsMoveFromRest, IsUnderWay, way_left_of, last_of, speed_of};
ghost use Rattle.otg.specs.Runs.{IsAtRest, IsHalt, IsHaltByLimits, IsVelocityUp, IsVelocityDown, HasRoomAbove, HasRoomBelow};

/// A move is done once as many steps as its bound are made, with no other command in between, and
/// stays done: from rest, and from any motion that heads for its target and can stop before it,
/// within the cycles in which such a move arrives by its rates.
pub fn moves_are_done()
    ensures from_rest { (run : ℕ → Otg) (n : ℕ) → IsRun run → IsMoveFromRest (run zero) →
        move_cycles_of (rates_of_command (run zero)) (way_left_of (run zero)) ≤ n → IsDone (run n) }
    ensures under_way { (run : ℕ → Otg) (m n : ℕ) → IsRun run → IsUnderWay (run zero) →
        IsArrivedWithin m (rates_of_command (run zero)) (way_left_of (run zero)) (last_of (run zero)) (speed_of (run zero)) →
        m ≤ n → IsDone (run n) }
{}

/// A halt is at rest once k + n + 2 steps are made, with no other command in between, where k of
/// its j have amax and its d together, and n of its d have vmax; and stays at rest: by dmax and jmax
/// from any motion of an open generator, and by a lesser d and j from one that keeps them and can
/// stop by them within the limits.
pub fn halts_are_done()
    ensures by_limits { (run : ℕ → Otg) (k n m : ℕ) → IsRun run → IsHaltByLimits (run zero) →
        unsigned_abs (run zero).amax + (run zero).d ≤ k * (run zero).j → unsigned_abs (run zero).vmax ≤ n * (run zero).d →
        k + n + 2 ≤ m → IsAtRest (run m) }
    ensures by_rates { (run : ℕ → Otg) (k n m : ℕ) → IsRun run → IsHalt (run zero) →
        unsigned_abs (run zero).amax + (run zero).d ≤ k * (run zero).j → unsigned_abs (run zero).vmax ≤ n * (run zero).d →
        k + n + 2 ≤ m → IsAtRest (run m) }
{}

/// A velocity is reached once k + n + 1 steps are made, with no other command in between, where k of
/// its j have its a and d together, n of its d have vmax less the velocity, and n of its a have the
/// velocity: from any motion in its direction that keeps its rates and can stop by them within the
/// limits. It is held as long as there is room to stop by them after the next step.
pub fn velocities_are_done()
    ensures up { (run : ℕ → Otg) (k n m : ℕ) → IsRun run → IsVelocityUp (run zero) → ((i : ℕ) → i < m → HasRoomAbove (run i)) →
        (run zero).a + (run zero).d ≤ k * (run zero).j →
        unsigned_abs (run zero).vmax - unsigned_abs (run zero).target ≤ n * (run zero).d → unsigned_abs (run zero).target ≤ n * (run zero).a →
        k + n + 1 ≤ m → ((run m).current -ℤ (run m).before) ≡ (run m).target }
    ensures down { (run : ℕ → Otg) (k n m : ℕ) → IsRun run → IsVelocityDown (run zero) → ((i : ℕ) → i < m → HasRoomBelow (run i)) →
        (run zero).a + (run zero).d ≤ k * (run zero).j →
        unsigned_abs (run zero).vmax - unsigned_abs (run zero).target ≤ n * (run zero).d → unsigned_abs (run zero).target ≤ n * (run zero).a →
        k + n + 1 ≤ m → ((run m).current -ℤ (run m).before) ≡ (run m).target }
{}
