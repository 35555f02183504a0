// Names.

ghost use Rattle.std.specs.Prelude.{◌≡◌, ◌≤◌, ◌<◌, ◌↔◌, IsTrue, take};
ghost use Rattle.std.specs.List.{list_all};
ghost use Rattle.iec_tokens.specs.Bytes as bytes;
ghost use Rattle.iec_tokens.specs.Names as names;

use crate::byte::{begins_word, is_name_byte};
use std::marker::Model;

/// The most bytes of a name.
pub const LONGEST_NAME: usize = 32;

/// A name as it is written: a letter or `_`, and up to 31 letters, digits or `_`, in ASCII.
/// Contracts see it as its bytes.
#[derive(Clone, Copy)]
pub struct Name {
    bytes: [u8; 32],
    len: usize,
}

impl Model for Name {
    ghost use Rattle.std.specs.Prelude.{ℕ, List};

    ghost Value = { List ℕ };

    ghost use Rattle.iec_tokens.specs.NameBytes.{bytes_of, IsNameBytes, inside_of, inside_of-bytes_of};

    ghost view = { bytes_of };

    ghost invariant = { IsNameBytes };

    ghost inverse = { inside_of };

    ghost inverse_ok = { inside_of-bytes_of };
}

impl Name {
    /// The name with these bytes.
    pub fn new(bytes: &[u8]) -> Name
        requires { IsTrue (names.is_name bytes.now) }
        ensures { result ≡ bytes.now }
    {
        let mut room = [0u8; 32];
        let len = bytes.len();
        room[..len].copy_from_slice(bytes);
        Name { bytes: room, len }
    }

    /// Its bytes, as they were written.
    pub fn bytes(&self) -> &[u8]
        ensures bytes { result.now ≡ self.now }
        ensures named { IsTrue (names.is_name self.now) }
    {
        &self.bytes[..self.len]
    }

    /// Whether two names are the same, in any case of letters.
    #[tactic(auto, unfolding(crate::specs::Names::is_same))]
    pub fn is(&self, other: &Name) -> bool
        ensures { result ≡ names.is_same self.now other.now }
    {
        self.bytes().eq_ignore_ascii_case(other.bytes())
    }
}

/// Whether the bytes are a name.
pub fn is_name(bytes: &[u8]) -> bool
    ensures { result ≡ names.is_name bytes.now }
{
    match bytes {
        [] => false,
        [first, others @ ..] => {
            begins_word(*first) && others.len() < LONGEST_NAME && are_name_bytes(others)
        }
    }
}

// Whether each byte may stand in a name after its first.
fn are_name_bytes(name: &[u8]) -> bool
    ensures { result ≡ list_all bytes.is_name_byte name.now }
{
    name.iter().all(|b| is_name_byte(*b))
}
