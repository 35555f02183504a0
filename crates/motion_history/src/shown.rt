// The texts of names that may not be there.

ghost use Rattle.std.specs.Prelude.{◌≡◌};
ghost use Rattle.motion_history.specs.NameTexts as spec;

use crate::config::Config;
use plc_types::Name;

/// The bytes of a name, or none.
pub fn name_text(name: &Option<Name>) -> &[u8]
    ensures { result.now ≡ spec.text_or_none name.now }
{
    match name {
        Some(name) => name.bytes(),
        None => b"",
    }
}

/// The name of an axis, if it is there.
#[tactic(auto, unfolding(crate::specs::NameTexts::axis_name))]
pub fn axis_name(config: &Config, number: usize) -> Option<Name>
    ensures { spec.text_or_none result ≡ spec.axis_name config.now number }
{
    match config.axes().get(number) {
        Some(def) => Some(def.name),
        None => None,
    }
}
