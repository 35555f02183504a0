// Whether a machine satisfies the invariant.

ghost use Rattle.std.specs.Prelude.{◌≡◌, ◌↔◌, IsTrue, ℕ, ◌<◌, length};
ghost use Rattle.motion_kernel.specs.kept.Machine.{IsAxisKept, IsGroupKept, IsMachineKept, IsSized};
ghost use Rattle.motion_kernel.specs.kept.Machine as machine;

mod axes;
mod groups;
mod members;

use axes::is_axis_at;
use groups::is_group_at;
use motion_history::{Config, Limits};
use motion_kernel::Start;

// The limits of an axis of a configuration.
fn limits_of(config: &Config, axis: u8) -> Limits
    requires { axis < length config.now.axes }
    ensures { result ≡ machine.limits_of config.now axis }
{
    config.axes()[axis as usize].limits
}

// Whether all groups of a machine are so.
fn are_groups_kept(config: &Config, start: &Start) -> bool
    requires { IsSized config.now start.now }
    ensures yes { IsTrue result → (j : ℕ) → j < length start.now.groups →
        IsGroupKept config.now start.now j }
    ensures no { ((j : ℕ) → j < length start.now.groups → IsGroupKept config.now start.now j) →
        IsTrue result }
{
    for group in 0..config.groups().len() {
        if !is_group_at(config, start, group as u8) {
            return false;
        }
    }
    true
}

// Whether all axes of a machine whose groups are so are.
fn are_axes_kept(config: &Config, start: &Start) -> bool
    requires sized { IsSized config.now start.now }
    requires groups { (j : ℕ) → j < length start.now.groups → IsGroupKept config.now start.now j }
    ensures yes { IsTrue result → (n : ℕ) → n < length start.now.axes →
        IsAxisKept config.now start.now n }
    ensures no { ((n : ℕ) → n < length start.now.axes → IsAxisKept config.now start.now n) →
        IsTrue result }
{
    for axis in 0..config.axes().len() {
        if !is_axis_at(config, start, axis as u8) {
            return false;
        }
    }
    true
}

/// Whether a machine is one that satisfies the invariant of its configuration: each axis and each
/// group is as its state says, with numbers in their ranges and commands that fit; and an axis of a
/// group is on its path where the group says so, and nowhere else.
pub fn is_machine_kept(config: &Config, start: &Start) -> bool
    requires sized { IsSized config.now start.now }
    ensures { IsTrue result ↔ IsMachineKept config.now start.now }
{
    are_groups_kept(config, start) && are_axes_kept(config, start)
}
