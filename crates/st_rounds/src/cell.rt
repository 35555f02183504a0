// A machine with tasks in Structured Text.

ghost use Rattle.std.specs.Prelude.{◌≡◌, length, map};
ghost use Rattle.std.specs.List.{All};
ghost use Rattle.motion_history.specs.Drives.{IsDrive};
ghost use Rattle.st_exec.specs.Compiled.{program_of};

use motion_history::{Config, DriveDefs};
use st_exec::StCode;
use st_tree::StProgram;

/// A machine, the trees of its tasks and their code, and the drives of its axes.
#[derive(Drop)]
pub struct Controller {
    pub config: Config,
    pub drives: DriveDefs,
    pub program: StProgram,
    pub code: StCode,
    pub ghost compiled: { code.tasks ≡ map program_of program.tasks.items },
    pub ghost each: { length drives ≡ length config.axes },
    pub ghost simulated: { All IsDrive drives },
}
