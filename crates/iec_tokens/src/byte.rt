// What bytes may stand where.

ghost use Rattle.std.specs.Prelude.{◌≡◌, ◌≤◌, length};
ghost use Rattle.std.specs.List.{prefix_len};
ghost use Rattle.iec_tokens.specs.Bytes as spec;

// Whether a byte is a letter.
fn is_letter(b: u8) -> bool
    ensures { result ≡ spec.is_letter b }
{
    (b'A' <= b && b <= b'Z') || (b'a' <= b && b <= b'z')
}

// Whether a byte is a decimal digit.
pub fn is_digit(b: u8) -> bool
    ensures { result ≡ spec.is_digit b }
{
    b'0' <= b && b <= b'9'
}

// Whether a byte begins a word.
pub fn begins_word(b: u8) -> bool
    ensures { result ≡ spec.begins_word b }
{
    is_letter(b) || b == b'_'
}

// Whether a byte may stand in a word.
pub fn is_name_byte(b: u8) -> bool
    ensures { result ≡ spec.is_name_byte b }
{
    is_letter(b) || is_digit(b) || b == b'_'
}

// Whether a byte separates tokens.
pub fn is_gap(b: u8) -> bool
    ensures { result ≡ spec.is_gap b }
{
    b == b' ' || b == b'\t' || b == b'\r' || b == b'\n'
}

/// What stands in a run of bytes.
#[derive(Clone, Copy)]
pub enum Run {
    /// Letters, digits and `_`.
    Word,
    /// The bytes of a line.
    Line,
}

// Whether a byte stands in such a run.
fn stands_in(run: Run, b: u8) -> bool
    ensures { result ≡ spec.stands_in run b }
{
    match run {
        Run::Word => is_name_byte(b),
        Run::Line => b != b'\n',
    }
}

// How many bytes at the front stand in such a run.
pub fn run_length(run: Run, bytes: &[u8]) -> usize
    ensures length { result ≡ prefix_len (spec.stands_in run) bytes.now }
    ensures within { result ≤ length bytes.now }
{
    let mut count = 0;
    for byte in bytes {
        if !stands_in(run, *byte) {
            return count;
        }
        count += 1;
    }
    count
}
