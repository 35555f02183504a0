// Whether whoever has a command is an instance whose block has its commands there.

ghost use Rattle.std.specs.Prelude.{◌≡◌, ◌↔◌, IsTrue, ℕ, ◌<◌, length};
ghost use Rattle.motion_kernel.specs.kept.Machine.{IsSized};
ghost use Rattle.motion_kernel.specs.owners.Blocks.{OwnersHaveBlocks, OwnersHaveBlocksOn};
ghost use Rattle.motion_kernel.specs.owners.Objects.{a_group, an_axis};

mod blocks;
mod commands;
mod kinds;
mod showing;

use commands::{axis_owners_have_blocks, group_owners_have_blocks};
pub use kinds::have_kinds_of_blocks;
use motion_history::Config;
use motion_kernel::Start;
pub use showing::are_commands_shown;

// Whether it is so of all axes.
fn all_axis_owners_have_blocks(config: &Config, start: &Start) -> bool
    requires { IsSized config.now start.now }
    ensures yes { IsTrue result → (n : ℕ) → n < length start.now.axes →
        OwnersHaveBlocksOn config.now start.now (an_axis n) }
    ensures no { ((n : ℕ) → n < length start.now.axes →
        OwnersHaveBlocksOn config.now start.now (an_axis n)) → IsTrue result }
{
    for axis in 0..config.axes().len() {
        if !axis_owners_have_blocks(config, start, axis as u8) {
            return false;
        }
    }
    true
}

// Whether it is so of all groups.
fn all_group_owners_have_blocks(config: &Config, start: &Start) -> bool
    requires { IsSized config.now start.now }
    ensures yes { IsTrue result → (j : ℕ) → j < length start.now.groups →
        OwnersHaveBlocksOn config.now start.now (a_group j) }
    ensures no { ((j : ℕ) → j < length start.now.groups →
        OwnersHaveBlocksOn config.now start.now (a_group j)) → IsTrue result }
{
    for group in 0..config.groups().len() {
        if !group_owners_have_blocks(config, start, group as u8) {
            return false;
        }
    }
    true
}

/// Whether whoever has a command of an axis or a group of a machine, active, waiting or a pending
/// reset, or holds it in stopping, is an instance whose block has its commands there, as a Power
/// has none anywhere.
pub fn have_owners_blocks(config: &Config, start: &Start) -> bool
    requires sized { IsSized config.now start.now }
    ensures { IsTrue result ↔ OwnersHaveBlocks config.now start.now }
{
    all_axis_owners_have_blocks(config, start) && all_group_owners_have_blocks(config, start)
}
