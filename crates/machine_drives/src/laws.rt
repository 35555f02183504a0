// Laws of drives over a history: each is the contract of a function that does nothing.

ghost use Rattle.std.specs.Prelude.{List};
ghost use Rattle.std.specs.List.{All};
ghost use Rattle.machine_drives.specs.Drives.{CanOpen};
ghost use Rattle.machine_drives.specs.Laws.{FollowOutputs};
ghost use Rattle.motion_history.specs.Drives.{IsDrive};
ghost use Rattle.motion_history.specs.declared.drives.DriveDef.{DriveDef};

/// Drives follow the outputs of a history, cycle after cycle. Nothing runs.
pub fn drives_follow_their_outputs()
    ensures { FollowOutputs }
{}

/// The drives of a machine can be opened. Nothing runs.
pub fn drives_can_be_opened()
    ensures one { (d : DriveDef) → IsDrive d → CanOpen d }
    ensures all { (ds : List DriveDef) → All IsDrive ds → All CanOpen ds }
{}
