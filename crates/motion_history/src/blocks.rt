// When a task and a block may be one of a configuration.

ghost use Rattle.std.specs.Prelude.{◌≡◌, length};
ghost use Rattle.motion_history.specs.Faults as faults;
ghost use Rattle.motion_history.specs.Items.{setup_of};
ghost use Rattle.motion_history.specs.Ranges as ranges;

use crate::config::Items;
use crate::fault::ConfigFault;
use crate::names::name_fault;
use crate::sizes::{MOST_BLOCKS, MOST_TASKS};
use plc_types::BlockKind;

/// Why a task is refused.
#[tactic(auto, unfolding(crate::specs::Faults::task_fault))]
pub fn task_fault(items: &Items, name: &[u8]) -> Option<ConfigFault>
    ensures { result ≡ faults.task_fault (setup_of items.now) name.now }
{
    if let Some(fault) = name_fault(items, name) {
        return Some(fault);
    }
    if items.tasks.len() >= MOST_TASKS {
        Some(ConfigFault::TooMany)
    } else {
        None
    }
}

/// Why a block is refused.
#[tactic(auto, unfolding(crate::specs::Faults::block_fault))]
pub fn block_fault(
    items: &Items,
    name: &[u8],
    task: u8,
    kind: BlockKind,
    object: u8,
) -> Option<ConfigFault>
    ensures { result ≡ faults.block_fault (setup_of items.now) name.now task kind object }
{
    if let Some(fault) = name_fault(items, name) {
        return Some(fault);
    }
    if !has_block(items, task, kind, object) {
        Some(ConfigFault::NameUnknown)
    } else if items.blocks.len() >= MOST_BLOCKS {
        Some(ConfigFault::TooMany)
    } else {
        None
    }
}

// Whether the task and the axis or group of a block are there.
fn has_block(items: &Items, task: u8, kind: BlockKind, object: u8) -> bool
    ensures { let s = setup_of items.now in
        result ≡
        ranges.has_block (length s.tasks) (length s.axes) (length s.groups) task kind object }
{
    let objects = if kind.acts_on_group() {
        items.groups.len()
    } else {
        items.axes.len()
    };
    (task as usize) < items.tasks.len() && (object as usize) < objects
}
