// The names of a configuration, which differ from each other.

ghost use Rattle.std.specs.Prelude.{◌≡◌, ◌||◌};
ghost use Rattle.std.specs.List.{list_any};
ghost use Rattle.std.specs.Str.{bytes_eq};
ghost use Rattle.motion_history.specs.Items.{setup_of};
ghost use Rattle.motion_history.specs.Faults as faults;

use crate::config::{BlockDef, GroupDef, Items};
use crate::fault::ConfigFault;
use plc_types::{AxisDef, Name, is_name};

// Whether two names are the same.
fn is_same(name: &Name, bytes: &[u8]) -> bool
    ensures { result ≡ bytes_eq name.now bytes.now }
{
    name.bytes() == bytes
}

// Whether an axis has the name.
fn is_axis(axes: &[AxisDef], name: &[u8]) -> bool
    ensures { result ≡ list_any (λ d. bytes_eq d.name name.now) axes.now }
{
    axes.iter().any(|d| is_same(&d.name, name))
}

// Whether a group has the name.
fn is_group(groups: &[GroupDef], name: &[u8]) -> bool
    ensures { result ≡ list_any (λ d. bytes_eq d.name name.now) groups.now }
{
    groups.iter().any(|d| is_same(&d.name, name))
}

// Whether a task has the name.
fn is_task(tasks: &[Name], name: &[u8]) -> bool
    ensures { result ≡ list_any (λ n. bytes_eq n name.now) tasks.now }
{
    tasks.iter().any(|n| is_same(n, name))
}

// Whether a block has the name.
fn is_block(blocks: &[BlockDef], name: &[u8]) -> bool
    ensures { result ≡ list_any (λ d. bytes_eq d.name name.now) blocks.now }
{
    blocks.iter().any(|d| is_same(&d.name, name))
}

// Whether an axis or a group has the name.
fn is_object(items: &Items, name: &[u8]) -> bool
    ensures { let s = setup_of items.now in result ≡
        (list_any (λ d. bytes_eq d.name name.now) s.axes ||
        list_any (λ d. bytes_eq d.name name.now) s.groups) }
{
    is_axis(items.axes.as_slice(), name) || is_group(items.groups.as_slice(), name)
}

// Whether a task or a block has the name.
fn is_caller(items: &Items, name: &[u8]) -> bool
    ensures { let s = setup_of items.now in result ≡
        (list_any (λ n. bytes_eq n name.now) s.tasks ||
        list_any (λ d. bytes_eq d.name name.now) s.blocks) }
{
    is_task(items.tasks.as_slice(), name) || is_block(items.blocks.as_slice(), name)
}

// Whether an item has the name.
#[tactic(auto, using(crate::proofs::NameTests::is_used_parts))]
fn is_used(items: &Items, name: &[u8]) -> bool
    ensures { result ≡ faults.is_used (setup_of items.now) name.now }
{
    is_object(items, name) || is_caller(items, name)
}

/// Why a name is refused.
pub fn name_fault(items: &Items, name: &[u8]) -> Option<ConfigFault>
    ensures { result ≡ faults.name_fault (setup_of items.now) name.now }
{
    if !is_name(name) {
        Some(ConfigFault::BadName)
    } else if is_used(items, name) {
        Some(ConfigFault::NameUsed)
    } else {
        None
    }
}
