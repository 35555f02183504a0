// The switches of a file.

ghost use Rattle.std.specs.Prelude.{◌≡◌};

use crate::switch::Switch;
use std::marker::Model;

/// The switches of a file, in its order. Contracts see it as a list.
#[derive(Drop)]
pub struct Switches {
    pub(crate) list: Vec<Switch>,
}

impl Model for Switches {
    ghost use Rattle.std.specs.Prelude.{List};
    ghost use Rattle.switch_text.specs.declared.switch.Switch.{Switch};

    ghost Value = { List Switch };

    ghost view = { λ s. s.list.items };
}

impl Switches {
    /// The switches, in the order of the file.
    pub fn list(&self) -> &[Switch]
        ensures { result.now ≡ self.now }
    {
        self.list.as_slice()
    }
}
