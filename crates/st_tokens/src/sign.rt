// Signs.

ghost use Rattle.std.specs.Prelude.{◌≡◌, ◌≤◌, IfSome, length};
ghost use Rattle.st_tokens.specs.Signs as spec;

use crate::token::Sign;

/// The signs, one of two bytes before the one that its first byte is.
pub const SIGNS: [Sign; 16] = [
    Sign::Gets,
    Sign::Different,
    Sign::AtMost,
    Sign::AtLeast,
    Sign::Colon,
    Sign::Semicolon,
    Sign::Comma,
    Sign::Open,
    Sign::Close,
    Sign::Dot,
    Sign::Plus,
    Sign::Minus,
    Sign::Times,
    Sign::Equal,
    Sign::Below,
    Sign::Above,
];

/// How a sign is written.
#[tactic(auto, unfolding(crate::specs::Signs::sign_text))]
pub fn sign_text(sign: Sign) -> &'static str
    ensures { result.now ≡ spec.sign_text sign }
{
    match sign {
        Sign::Gets => ":=",
        Sign::Colon => ":",
        Sign::Semicolon => ";",
        Sign::Comma => ",",
        Sign::Open => "(",
        Sign::Close => ")",
        Sign::Dot => ".",
        Sign::Plus => "+",
        Sign::Minus => "-",
        Sign::Times => "*",
        Sign::Equal => "=",
        Sign::Different => "<>",
        Sign::Below => "<",
        Sign::AtMost => "<=",
        Sign::Above => ">",
        Sign::AtLeast => ">=",
    }
}

// The sign at the front.
#[tactic(auto, unfolding(crate::specs::Signs::sign_at))]
pub fn sign_at(bytes: &[u8]) -> Option<Sign>
    ensures { result ≡ spec.sign_at bytes.now }
{
    SIGNS
        .iter()
        .find(|sign| bytes.starts_with(sign_text(**sign).as_bytes()))
        .copied()
}
