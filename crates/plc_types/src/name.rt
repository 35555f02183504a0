// The names of axes, groups, tasks and blocks.

ghost use Rattle.std.specs.Prelude.{◌≡◌, ◌≤◌, ◌<◌, ◌↔◌, IsTrue, take};
ghost use Rattle.std.specs.List.{list_all};
ghost use Rattle.plc_types.specs.Names as names;

use std::marker::Model;

/// The most bytes of a name.
pub const LONGEST_NAME: usize = 16;

/// The name of an axis, a group, a task or a block: a letter and up to 15 letters, digits or `_`,
/// in ASCII. Contracts see it as its bytes.
#[derive(Clone, Copy)]
pub struct Name {
    bytes: [u8; 16],
    len: usize,
}

impl Model for Name {
    ghost use Rattle.std.specs.Prelude.{ℕ, List};

    ghost Value = { List ℕ };

    ghost use Rattle.plc_types.specs.NameBytes.{bytes_of, IsNameBytes, inside_of, inside_of-bytes_of};

    ghost view = { bytes_of };

    ghost invariant = { IsNameBytes };

    ghost inverse = { inside_of };

    ghost inverse_ok = { inside_of-bytes_of };
}

impl Name {
    /// The name with these bytes.
    pub fn new(bytes: &[u8]) -> Name
        requires { IsTrue (names.is_name bytes.now) }
        ensures { result ≡ bytes.now }
    {
        let mut room = [0u8; 16];
        let len = bytes.len();
        room[..len].copy_from_slice(bytes);
        Name { bytes: room, len }
    }

    /// Its bytes.
    pub fn bytes(&self) -> &[u8]
        ensures bytes { result.now ≡ self.now }
        ensures named { IsTrue (names.is_name self.now) }
    {
        &self.bytes[..self.len]
    }

    /// Whether two names are the same.
    pub fn is(&self, other: &Name) -> bool
        ensures { IsTrue result ↔ (self.now ≡ other.now) }
    {
        self.bytes() == other.bytes()
    }
}

/// Whether the bytes are a name.
pub fn is_name(bytes: &[u8]) -> bool
    ensures { result ≡ names.is_name bytes.now }
{
    match bytes {
        [] => false,
        [first, others @ ..] => {
            is_letter(*first) && others.len() < LONGEST_NAME && are_name_bytes(others)
        }
    }
}

// Whether a byte is a letter.
fn is_letter(b: u8) -> bool
    ensures { result ≡ names.is_letter b }
{
    (b'A' <= b && b <= b'Z') || (b'a' <= b && b <= b'z')
}

// Whether a byte is a decimal digit.
fn is_digit(b: u8) -> bool
    ensures { result ≡ names.is_digit b }
{
    b'0' <= b && b <= b'9'
}

// Whether a byte may stand in a name after its first.
fn is_name_byte(b: u8) -> bool
    ensures { result ≡ names.is_name_byte b }
{
    is_letter(b) || is_digit(b) || b == b'_'
}

// Whether each byte may stand in a name after its first.
fn are_name_bytes(bytes: &[u8]) -> bool
    ensures { result ≡ list_all names.is_name_byte bytes.now }
{
    bytes.iter().all(|b| is_name_byte(*b))
}
