// A short text in a fixed place.
ghost use Rattle.std.specs.Prelude.{◌≡◌, ◌+◌, ◌<◌, [], ◌∷◌, ◌++◌, length};

use std::marker::Model;

/// A text of at most 40 bytes.
#[derive(Drop)]
pub struct Text40 {
    room: [u8; 40],
    len: usize,
}

impl Model for Text40 {
    ghost use Rattle.std.specs.Prelude.{ℕ, ◌≤◌, List, take};

    ghost Value = { List ℕ };

    ghost view = { λ t. take t.len t.room };

    ghost invariant = { λ t. t.len ≤ 40 };
}

impl Text40 {
    /// An empty text.
    pub fn new() -> Text40
        ensures { result ≡ [] }
    {
        Text40 {
            room: [0; 40],
            len: 0,
        }
    }

    /// The bytes of the text.
    pub fn bytes(&self) -> &[u8]
        ensures { result.now ≡ self.now }
    {
        &self.room[..self.len]
    }

    pub(crate) fn clear(&mut self)
        ensures { self.new ≡ [] }
    {
        self.len = 0;
    }

    pub(crate) fn push(&mut self, byte: u8)
        requires { length self.old < 40 }
        ensures { self.new ≡ self.old ++ byte ∷ [] }
    {
        self.room[self.len] = byte;
        self.len += 1;
    }
}
