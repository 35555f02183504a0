// Signs.

ghost use Rattle.std.specs.Prelude.{◌≡◌};
ghost use Rattle.iec_tokens.specs.Signs as spec;

use crate::token::Sign;

/// The signs, one of two bytes before the one that its first byte is.
pub const SIGNS: [Sign; 22] = [
    Sign::Gets,
    Sign::Into,
    Sign::UpTo,
    Sign::Different,
    Sign::AtMost,
    Sign::AtLeast,
    Sign::Colon,
    Sign::Semicolon,
    Sign::Comma,
    Sign::Open,
    Sign::Close,
    Sign::OpenIndex,
    Sign::CloseIndex,
    Sign::Dot,
    Sign::Plus,
    Sign::Minus,
    Sign::Times,
    Sign::Over,
    Sign::Equal,
    Sign::Below,
    Sign::Above,
    Sign::And,
];

/// How a sign is written.
#[tactic(auto, unfolding(crate::specs::Signs::sign_text))]
pub fn sign_text(sign: Sign) -> &'static str
    ensures { result.now ≡ spec.sign_text sign }
{
    match sign {
        Sign::Gets => ":=",
        Sign::Into => "=>",
        Sign::UpTo => "..",
        Sign::Different => "<>",
        Sign::AtMost => "<=",
        Sign::AtLeast => ">=",
        Sign::Colon => ":",
        Sign::Semicolon => ";",
        Sign::Comma => ",",
        Sign::Open => "(",
        Sign::Close => ")",
        Sign::OpenIndex => "[",
        Sign::CloseIndex => "]",
        Sign::Dot => ".",
        Sign::Plus => "+",
        Sign::Minus => "-",
        Sign::Times => "*",
        Sign::Over => "/",
        Sign::Equal => "=",
        Sign::Below => "<",
        Sign::Above => ">",
        Sign::And => "&",
    }
}

// The sign at the front.
#[tactic(auto, unfolding(crate::specs::Signs::sign_at))]
pub fn sign_at(text: &[u8]) -> Option<Sign>
    ensures { result ≡ spec.sign_at text.now }
{
    SIGNS
        .iter()
        .find(|sign| text.starts_with(sign_text(**sign).as_bytes()))
        .copied()
}
