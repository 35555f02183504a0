// What names of a switch file name.

ghost use Rattle.std.specs.Prelude.{◌≡◌, ◌<◌, IfSome, length};
ghost use Rattle.std.specs.List.{position};
ghost use Rattle.std.specs.Str.{bytes_eq};
ghost use Rattle.machine_words.specs.Names as names;
ghost use Rattle.switch_text.specs.Reading as spec;

use crate::switch::Switch;
use machine_words::is_same_name;
use motion_history::{AxisDef, Config};

// Where the axis of this name stands.
fn place_of(axes: &[AxisDef], name: &[u8]) -> Option<usize>
    ensures place { result ≡ position (λ d. bytes_eq d.name name.now) axes.now }
    ensures within { IfSome result (λ place. place < length axes.now) }
{
    axes.iter().position(|axis| is_same_name(&axis.name, name))
}

/// The number of the axis of this name.
#[tactic(auto, unfolding(machine_words::specs::Names::axis_at))]
pub fn axis_at(config: &Config, name: &[u8]) -> Option<u8>
    ensures { result ≡ names.axis_at config.now name.now }
{
    match place_of(config.axes(), name) {
        Some(place) => Some(place as u8),
        None => None,
    }
}

/// Whether one of the switches has this name.
#[tactic(auto, unfolding(crate::specs::Reading::is_used))]
pub fn is_used(switches: &[Switch], name: &[u8]) -> bool
    ensures { result ≡ spec.is_used switches.now name.now }
{
    switches
        .iter()
        .any(|switch| is_same_name(&switch.name, name))
}
