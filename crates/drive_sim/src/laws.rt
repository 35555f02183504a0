// Laws of simulated drives: each is the contract of a function that does nothing.

ghost use Rattle.std.specs.Prelude.{◌≡◌, ◌≤◌, ◌<◌, ◌^◌, ℕ, ℤ, Bool, false, List, [], length, map, take, slice_get};
ghost use Rattle.plc_types.specs.declared.drive.DriveOut.{DriveOut};
ghost use Rattle.drive_sim.specs.Sim.{DriveSim};
ghost use Rattle.drive_sim.specs.Steps.{opened, answer_of, keeps_target, drive_stepped};
ghost use Rattle.drive_sim.specs.Runs.{drive_after, answers_of, KeepsAll, lagging};

/// The answer for a cycle is the one after the outputs of the cycles before it: for cycle k that
/// after k - 1 outputs.
pub fn answers_come_one_cycle_later()
    ensures { (sim : DriveSim) (outs : List DriveOut) (before : ℕ) → before ≤ length outs →
        slice_get (answers_of sim outs) before
        ≡ Some (answer_of (drive_after sim (take before outs))) }
{}

/// A drive that opened counts its steps, one for each output.
pub fn steps_are_counted()
    ensures { (lag : ℕ) (faults : List ℕ) (count : ℤ) (ready : Bool) (outs : List DriveOut) →
        length outs < 2 ^ 64 → (drive_after (opened lag faults count ready) outs).steps
        ≡ length outs }
{}

/// Over steps that all keep their targets, from a drive that has none yet, the actual count is the
/// target given as many steps before the last as the lag says; it stays until there is one.
pub fn lags_are_counted_in_kept_targets()
    ensures { (sim : DriveSim) (outs : List DriveOut) → sim.kept ≡ [] → KeepsAll sim outs →
        (drive_after sim outs).actual ≡ lagging sim.lag
        (map (λ (o : DriveOut). o.target) outs) sim.actual }
{}

/// A step that doesn't keep its target, as one outside of Operation enabled or in another mode,
/// leaves the actual count and forgets the targets kept.
pub fn other_steps_forget_targets()
    ensures stays { (sim : DriveSim) (out : DriveOut) → keeps_target sim out ≡ false →
        (drive_stepped sim out).actual ≡ sim.actual }
    ensures forgotten { (sim : DriveSim) (out : DriveOut) → keeps_target sim out ≡ false →
        (drive_stepped sim out).kept ≡ [] }
{}
