// Laws of a plant's run, cycle by cycle: each is the contract of a function that does nothing.

ghost use Rattle.std.specs.Prelude.{List};
ghost use Rattle.drive_sim.specs.Sim.{DriveSim};
ghost use Rattle.motion_history.specs.Entries.{Entry};
ghost use Rattle.motion_history.specs.Setup.{Setup};
ghost use Rattle.motion_plant.specs.Laws.{AreDriven, AreInTime};
ghost use Rattle.motion_plant.specs.Ran.{PlantRan};
ghost use Rattle.plc_program.specs.declared.program.Instruction.{Instruction};
ghost use Rattle.setpoint_ring.specs.declared.logs.DriveLog.{DriveLog};

/// Each cycle of a run comes where no task is quiet, and takes the answers that the drives give
/// after the cycles before it. Nothing runs.
pub fn cycles_take_the_answers()
    ensures { (s : Setup) (program : List (List Instruction)) (drives : List DriveSim)
        (h : List Entry) (logs : List DriveLog) → PlantRan s program drives h logs →
        AreDriven s drives h }
{}

/// After each cycle of a run but the last a task lives. Nothing runs.
pub fn cycles_end_with_the_tasks()
    ensures { (s : Setup) (program : List (List Instruction)) (drives : List DriveSim)
        (h : List Entry) (logs : List DriveLog) → PlantRan s program drives h logs →
        AreInTime s h }
{}
