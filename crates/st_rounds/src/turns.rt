// The turns of tasks, and rounds of them, on a kernel with its drives.

ghost use Rattle.std.specs.Prelude.{◌≡◌, ◌+◌, false, List, OnOk, Ok, Some, length, map, slice_get};
ghost use Rattle.std.specs.List.{list_any};
ghost use Rattle.bench_run.specs.Going.{IsGoing, run_at};
ghost use Rattle.drive_sim.specs.Sim.{DriveSim};
ghost use Rattle.st_tree.specs.declared.program.Task.{Task};
ghost use Rattle.st_rounds.specs.Controllers.{cell_of};
ghost use Rattle.st_rounds.specs.Playing.{IsBetween};
ghost use Rattle.st_rounds.specs.Players.{ArePlaying, HasMade, HasTurned, stand_of};
ghost use Rattle.st_rounds.specs.Ready.{AreReady};
ghost use Rattle.st_rounds.specs.Rounds as spec;

use crate::cell::Controller;
use crate::player::Player;
use crate::scan::make_scan;
use bench_run::{RunFault, make_cycle};
use drive_sim::Drive;
use hot_standby::PrimaryKernel;
use motion_history::cycles_add_up;

// The turn of the task of this number: a scan, where it lives.
#[tactic(auto, unfolding(crate::specs::Rounds::turn))]
fn make_turn(
    kernel: &mut PrimaryKernel,
    cell: &Controller,
    number: u8,
    player: &mut Player,
) -> Result<(), RunFault>
    requires runs { kernel.old.kernel.stopped ≡ false }
    requires config { kernel.old.kernel.config ≡ cell.now.config }
    requires ready { AreReady cell.now.config cell.now.code.us cell.now.program.tasks.items }
    requires task { IsBetween cell.now.code number player.old.task }
    ensures config { kernel.new.kernel.config ≡ kernel.old.kernel.config }
    ensures runs { kernel.new.kernel.stopped ≡ false }
    ensures made { (t : Task) → slice_get cell.now.program.tasks.items number ≡ Some t →
        (drives : List DriveSim) → HasTurned
        (spec.turn (cell_of cell.now) number t (stand_of player.old)
        (run_at kernel.old.kernel drives (Ok tt)))
        kernel.new.kernel drives result player.new }
    ensures task { OnOk result (IsBetween cell.now.code number player.new.task) }
{
    if player.lives {
        player.lives = make_scan(kernel, cell, number, &mut player.task)?;
    }
    Ok(())
}

// The turns of all tasks, in their order.
fn make_turns(
    kernel: &mut PrimaryKernel,
    cell: &Controller,
    players: &mut [Player],
) -> Result<(), RunFault>
    requires runs { kernel.old.kernel.stopped ≡ false }
    requires config { kernel.old.kernel.config ≡ cell.now.config }
    requires ready { AreReady cell.now.config cell.now.code.us cell.now.program.tasks.items }
    requires players { ArePlaying cell.now.code 0 players.old }
    requires each { length players.old ≡ length cell.now.program.tasks.items }
    ensures config { kernel.new.kernel.config ≡ kernel.old.kernel.config }
    ensures runs { kernel.new.kernel.stopped ≡ false }
    ensures made { (drives : List DriveSim) → HasMade
        (spec.turns (cell_of cell.now) 0 cell.now.program.tasks.items (map stand_of players.old)
        (run_at kernel.old.kernel drives (Ok tt)))
        kernel.new.kernel drives result players.new }
    ensures players { OnOk result (ArePlaying cell.now.code 0 players.new) }
{
    for (number, player) in players.iter_mut().enumerate() {
        make_turn(kernel, cell, number as u8, player)?;
    }
    Ok(())
}

// Whether a task lives.
fn any_lives(players: &[Player]) -> bool
    ensures { result ≡ list_any (λ p. p.lives) players.now }
{
    players.iter().any(|player| player.lives)
}

/// Rounds until no task lives, or until an event can't be made: the turns of all tasks, and then,
/// where one lives, a cycle.
pub fn make_rounds(
    kernel: &mut PrimaryKernel,
    drives: &mut [Drive],
    cell: &Controller,
    players: &mut [Player],
) -> Result<(), RunFault>
    requires going { IsGoing kernel.old.kernel drives.old }
    requires config { kernel.old.kernel.config ≡ cell.now.config }
    requires ready { AreReady cell.now.config cell.now.code.us cell.now.program.tasks.items }
    requires players { ArePlaying cell.now.code 0 players.old }
    requires each { length players.old ≡ length cell.now.program.tasks.items }
    ensures config { kernel.new.kernel.config ≡ kernel.old.kernel.config }
    ensures going { IsGoing kernel.new.kernel drives.new }
    ensures made { run_at kernel.new.kernel drives.new result ≡
        spec.rounds (cell.now.config.cycles + 1) (cell_of cell.now) (map stand_of players.old)
        (run_at kernel.old.kernel drives.old (Ok tt)) }
{
    // laws
    cycles_add_up();
    loop {
        make_turns(kernel, cell, players)?;
        if !any_lives(players) {
            return Ok(());
        }
        make_cycle(kernel, drives)?;
    }
}
