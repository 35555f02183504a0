// The words and truth values of a trace.

ghost use Rattle.std.specs.Prelude.{◌≡◌, ◌≤◌, ◌∷◌, []};
ghost use Rattle.std.specs.Option.{unwrap_or};
ghost use Rattle.trace_columns.specs.Columns as spec;

/// The truth value that a field is.
#[tactic(auto, unfolding(crate::specs::Columns::flag_of, crate::specs::Fields::flag_text))]
pub fn flag_of(text: &[u8]) -> Option<bool>
    ensures { result ≡ spec.flag_of text.now }
{
    match text {
        [b'1'] => Some(true),
        [b'0'] => Some(false),
        _ => None,
    }
}

/// More than each word, for a byte that is no hexadecimal digit.
const NONE: u32 = 65_536;

/// The value of each byte as a hexadecimal digit in small letters.
static HEX_DIGITS: [u32; 256] = [
    NONE, NONE, NONE, NONE, NONE, NONE, NONE, NONE, NONE, NONE, NONE, NONE, NONE, NONE, NONE, NONE,
    NONE, NONE, NONE, NONE, NONE, NONE, NONE, NONE, NONE, NONE, NONE, NONE, NONE, NONE, NONE, NONE,
    NONE, NONE, NONE, NONE, NONE, NONE, NONE, NONE, NONE, NONE, NONE, NONE, NONE, NONE, NONE, NONE,
    0, 1, 2, 3, 4, 5, 6, 7, 8, 9, NONE, NONE, NONE, NONE, NONE, NONE, NONE, NONE, NONE, NONE, NONE,
    NONE, NONE, NONE, NONE, NONE, NONE, NONE, NONE, NONE, NONE, NONE, NONE, NONE, NONE, NONE, NONE,
    NONE, NONE, NONE, NONE, NONE, NONE, NONE, NONE, NONE, NONE, NONE, NONE, 10, 11, 12, 13, 14, 15,
    NONE, NONE, NONE, NONE, NONE, NONE, NONE, NONE, NONE, NONE, NONE, NONE, NONE, NONE, NONE, NONE,
    NONE, NONE, NONE, NONE, NONE, NONE, NONE, NONE, NONE, NONE, NONE, NONE, NONE, NONE, NONE, NONE,
    NONE, NONE, NONE, NONE, NONE, NONE, NONE, NONE, NONE, NONE, NONE, NONE, NONE, NONE, NONE, NONE,
    NONE, NONE, NONE, NONE, NONE, NONE, NONE, NONE, NONE, NONE, NONE, NONE, NONE, NONE, NONE, NONE,
    NONE, NONE, NONE, NONE, NONE, NONE, NONE, NONE, NONE, NONE, NONE, NONE, NONE, NONE, NONE, NONE,
    NONE, NONE, NONE, NONE, NONE, NONE, NONE, NONE, NONE, NONE, NONE, NONE, NONE, NONE, NONE, NONE,
    NONE, NONE, NONE, NONE, NONE, NONE, NONE, NONE, NONE, NONE, NONE, NONE, NONE, NONE, NONE, NONE,
    NONE, NONE, NONE, NONE, NONE, NONE, NONE, NONE, NONE, NONE, NONE, NONE, NONE, NONE, NONE, NONE,
    NONE, NONE, NONE, NONE, NONE, NONE, NONE, NONE, NONE, NONE, NONE, NONE, NONE, NONE, NONE, NONE,
    NONE, NONE, NONE, NONE, NONE, NONE, NONE, NONE, NONE,
];

// The value of a hexadecimal digit in small letters, or more than each word.
#[inline]
fn hex_digit_of(digit: u8) -> u32
    ensures value { result ≡ unwrap_or (spec.hex_digit_of digit) 65536 }
    ensures most { result ≤ 65536 }
{
    HEX_DIGITS[digit as usize]
}

// The word of four hexadecimal digits.
fn hex_word(a: u8, b: u8, c: u8, d: u8) -> Option<u16>
    ensures { result ≡ spec.hex_of (a ∷ b ∷ c ∷ d ∷ []) }
{
    let word = hex_digit_of(a) * 4096
        + hex_digit_of(b) * 256
        + hex_digit_of(c) * 16
        + hex_digit_of(d);
    if word < NONE { Some(word as u16) } else { None }
}

/// The word that a field is, by its four hexadecimal digits.
#[tactic(auto, unfolding(crate::specs::Columns::hex_of))]
pub fn hex_of(text: &[u8]) -> Option<u16>
    ensures { result ≡ spec.hex_of text.now }
{
    match text {
        [a, b, c, d] => hex_word(*a, *b, *c, *d),
        _ => None,
    }
}
