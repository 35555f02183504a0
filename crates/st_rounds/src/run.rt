// A machine that is run with its tasks.

ghost use Rattle.std.specs.Prelude.{◌≡◌, ◌≤◌, IfOk, OnOk, length};
ghost use Rattle.bench_run.specs.Going.{IsGoing, run_at};
ghost use Rattle.st_rounds.specs.Controllers.{cell_of};
ghost use Rattle.st_rounds.specs.LegalRun.{IsLegalRun};
ghost use Rattle.st_rounds.specs.Opening.{AreOpened};
ghost use Rattle.st_rounds.specs.Ready.{AreReady};
ghost use Rattle.st_rounds.specs.Rounds as spec;

use crate::cell::Controller;
use crate::player::Player;
use crate::turns::make_rounds;
use bench_run::{Ran, histories_are_legal};
use hot_standby::PrimaryKernel;
use machine_drives::{drives_can_be_opened, open_drives};
use motion_history::OutOfMemory;
use st_exec::{StCode, StTask};
use std::alloc::Global;

// The tasks of a code before their first scans.
fn open_players(alloc: Global, code: &StCode) -> Result<Vec<Player>, OutOfMemory>
    requires few { length code.now.tasks ≤ 8 }
    ensures { IfOk result (λ players. AreOpened code.now players.items) }
{
    let mut players = Vec::new(alloc);
    for number in 0..code.tasks() as u8 {
        let task = StTask::open(alloc, code, number)?;
        let player = Player { task, lives: true };
        let Ok(()) = players.push(player) else {
            return Err(OutOfMemory);
        };
    }
    Ok(players)
}

/// Runs a machine with its tasks: rounds until no task lives, or until an event can't be made. All
/// memory is taken before the first scan.
#[tactic(auto, unfolding(crate::specs::Rounds::run_of))]
pub fn run_rounds(alloc: Global, cell: &Controller) -> Result<Ran, OutOfMemory>
    requires ready { AreReady cell.now.config cell.now.code.us cell.now.program.tasks.items }
    ensures made { IfOk result (λ r.
        run_at r.kernel r.drives.items r.ending ≡ spec.run_of (cell_of cell.now)) }
    ensures config { IfOk result (λ r. r.kernel.config ≡ cell.now.config) }
    ensures going { IfOk result (λ r. IsGoing r.kernel r.drives.items) }
    ensures legal { OnOk result (IsLegalRun (cell_of cell.now)) }
{
    // laws
    drives_can_be_opened();
    let config = &cell.config;
    let mut drives = open_drives(alloc, config.axes(), cell.drives.as_slice())?;
    let mut players = open_players(alloc, &cell.code)?;
    let mut primary = PrimaryKernel::open(alloc, config.copy(alloc)?, None)?;
    let ending = make_rounds(
        &mut primary,
        drives.as_mut_slice(),
        cell,
        players.as_mut_slice(),
    );
    let kernel = primary.finish();
    // laws
    histories_are_legal(&kernel);
    Ok(Ran {
        kernel,
        drives,
        ending,
    })
}
