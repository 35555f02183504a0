// Eight digits of a number at once, in the bytes of a word.

ghost use Rattle.std.specs.Prelude.{◌≡◌, ◌≤◌, ◌+◌, ◌*◌, ◌∷◌, [], ℕ, IfSome};
ghost use Rattle.std.specs.Str.Parse.{AllDigits, digits_value};

/// The upper half of each byte.
const UPPER: u64 = 0xF0F0_F0F0_F0F0_F0F0;

/// The lower half of each byte.
const LOWER: u64 = 0x0F0F_0F0F_0F0F_0F0F;

/// The digit 0 in each byte.
const ZEROS: u64 = 0x3030_3030_3030_3030;

/// What takes 10 in a byte, and more, to its upper half.
const SIXES: u64 = 0x0606_0606_0606_0606;

// The number whose digits are the bytes of a word, the first in the lowest.
#[inline]
fn value_of(digits: u64) -> u64
    requires { digits ≤ LOWER }
    ensures { (a b c d e f g h : ℕ) →
        a ≤ 9 → b ≤ 9 → c ≤ 9 → d ≤ 9 → e ≤ 9 → f ≤ 9 → g ≤ 9 → h ≤ 9 →
        digits ≡ a +
        256 * (b + 256 * (c + 256 * (d + 256 * (e + 256 * (f + 256 * (g + 256 * h)))))) →
        result ≡ ((((((a * 10 + b) * 10 + c) * 10 + d) * 10 + e) * 10 + f) * 10 + g) * 10 + h }
{
    let pairs = digits * 10 + digits / 256;
    ((pairs % 256 * 100 + pairs / 65_536 % 256) * 100 + pairs / 4_294_967_296 % 256) * 100
        + pairs / 281_474_976_710_656 % 256
}

/// The number that eight bytes are, where they are digits.
#[inline]
pub fn eight_digits(a: u8, b: u8, c: u8, d: u8, e: u8, f: u8, g: u8, h: u8) -> Option<u64>
    ensures digits { IfSome result (λ _. AllDigits 10 (a ∷ b ∷ c ∷ d ∷ e ∷ f ∷ g ∷ h ∷ [])) }
    ensures value { IfSome result (λ n.
        n ≡ digits_value 10 (a ∷ b ∷ c ∷ d ∷ e ∷ f ∷ g ∷ h ∷ [])) }
{
    let word = u64::from_le_bytes([a, b, c, d, e, f, g, h]);
    if word & UPPER != ZEROS {
        return None;
    }
    let digits = word & LOWER;
    if (digits + SIXES) & UPPER != 0 {
        return None;
    }
    Some(value_of(digits))
}
