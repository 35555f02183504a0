// How a run has ended, by its last history.

ghost use Rattle.std.specs.Prelude.{◌≡◌, ◌≢◌, ◌↔◌, length};
ghost use Rattle.motion_history.specs.Entries.{cycles_of};
ghost use Rattle.motion_kernel.specs.Tasks.{live_tasks};
ghost use Rattle.motion_plant.specs.Ran.{EndsSo};

use kernel_turn::Kernel;

/// How a run has ended.
#[derive(Clone, Copy, Debug, PartialEq, Eq)]
pub enum RunEnding {
    /// Every task has ended.
    Ok,
    /// A task lives, and all cycles were made.
    CyclesOver,
    /// A task lives, a cycle is left, and the history has all its entries.
    HistoryFull,
}

/// How a run has ended whose kernel this is.
pub fn ending_of(kernel: &Kernel) -> RunEnding
    requires ends { EndsSo kernel.now.config kernel.now.history }
    ensures ok { (result ≡ RunEnding.Ok) ↔
        (live_tasks kernel.now.config kernel.now.history ≡ 0) }
    ensures over { (result ≡ RunEnding.CyclesOver) ↔
        ((live_tasks kernel.now.config kernel.now.history ≢ 0) ×
        (cycles_of kernel.now.history ≡ kernel.now.config.cycles)) }
    ensures full { (result ≡ RunEnding.HistoryFull) ↔
        ((live_tasks kernel.now.config kernel.now.history ≢ 0) ×
        (cycles_of kernel.now.history ≢ kernel.now.config.cycles)) }
    ensures entries { result ≡ RunEnding.HistoryFull →
        length kernel.now.history ≡ kernel.now.config.entries }
{
    kernel.history();
    if kernel.live_tasks() == 0 {
        RunEnding::Ok
    } else if kernel.cycles_left() == 0 {
        RunEnding::CyclesOver
    } else {
        RunEnding::HistoryFull
    }
}
