// Whether a record names the axis or group that its place asks for.

ghost use Rattle.std.specs.Prelude.{◌≡◌};
ghost use Rattle.std.specs.Str.{bytes_eq};
ghost use Rattle.trace_text.specs.Records as records;

use machine_words::is_same_name;
use motion_history::Builder;

/// Whether this is the name of the axis of a number, or none where it isn't there.
#[tactic(auto, unfolding(motion_history::specs::NameTexts::axis_name))]
pub fn is_axis_name(machine: &Builder, axis: usize, name: &[u8]) -> bool
    ensures { result ≡ bytes_eq (records.axis_name machine.now axis) name.now }
{
    match machine.axes().get(axis) {
        Some(def) => is_same_name(&def.name, name),
        None => b"".as_slice() == name,
    }
}

/// Whether this is the name of the group of a number, or none where it isn't there.
#[tactic(auto, unfolding(crate::specs::Records::group_name))]
pub fn is_group_name(machine: &Builder, group: usize, name: &[u8]) -> bool
    ensures { result ≡ bytes_eq (records.group_name machine.now group) name.now }
{
    match machine.groups().get(group) {
        Some(def) => is_same_name(&def.name, name),
        None => b"".as_slice() == name,
    }
}
