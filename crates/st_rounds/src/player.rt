// A task in a run.

use st_exec::StTask;

/// A task between two scans, and whether it lives: its last scan was not made yet.
#[derive(Drop)]
pub struct Player {
    pub task: StTask,
    pub lives: bool,
}
