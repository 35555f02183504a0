// The tokens of a text, one after another.

ghost use Rattle.std.specs.Prelude.{◌≡◌, ◌≤◌, ◌<◌, ◌+◌, ◌^◌, ◌∷◌, Some, drop, length, min, slice_get, take};
ghost use Rattle.iec_tokens.specs.Tokens as spec;
ghost use Rattle.iec_tokens.specs.Left as left;

use crate::lexeme::{Lexeme, lexeme_at};
use crate::token::{Placed, Token};
use std::marker::Model;

/// The most tokens of a text.
pub const MOST_TOKENS: u32 = 1_000_000;

/// Where one stands in a text.
#[derive(Clone, Copy)]
struct Stand {
    /// How many more tokens there may be.
    left: u32,
    line: u64,
    /// The line of the byte before, which is 1 at the beginning.
    last: u64,
}

/// What is left of a text, until it ends or a token is wrong or one too many.
#[derive(Clone, Copy)]
struct Left<'a> {
    rest: Option<&'a [u8]>,
    stand: Stand,
}

/// The tokens of a text that are still to come. Contracts see them as the list of these.
#[derive(Drop)]
pub struct Tokens<'a> {
    left: Left<'a>,
}

impl<'a> Model for Tokens<'a> {
    ghost use Rattle.std.specs.Prelude.{List};
    ghost use Rattle.iec_tokens.specs.declared.token.Placed.{Placed};

    ghost Value = { List Placed };

    ghost use Rattle.iec_tokens.specs.TokensLeft.{tokens_of_left, is_left};

    ghost view = { tokens_of_left };

    ghost invariant = { is_left };
}

impl<'a> Tokens<'a> {
    /// The tokens of a text.
    #[tactic(auto, unfolding(crate::specs::Tokens::tokens_of))]
    pub fn of(text: &'a [u8]) -> Tokens<'a>
        ensures { result ≡ spec.tokens_of text.now }
    {
        let stand = Stand {
            left: MOST_TOKENS,
            line: 1,
            last: 1,
        };
        Tokens {
            left: Left {
                rest: Some(text),
                stand,
            },
        }
    }

    /// The next token, if one is still to come. The last is the text's end, or one that is wrong or
    /// one too many.
    pub fn next(&mut self) -> Option<Placed>
        ensures first { result ≡ slice_get self.old 0 }
        ensures others { self.new ≡ drop 1 self.old }
    {
        let rest = self.left.rest?;
        let (token, left) = find_token(self.left.stand, rest);
        self.left = left;
        Some(token)
    }
}

// The line after a byte.
fn line_behind(line: u64, byte: u8) -> u64
    requires { line + 1 < 2 ^ 64 }
    ensures behind { result ≡ spec.line_behind line byte }
    ensures near { result ≤ line + 1 }
{
    if byte == b'\n' { line + 1 } else { line }
}

// Where one stands after these bytes.
fn stand_after(stand: Stand, bytes: &[u8]) -> Stand
    requires { stand.line + length bytes.now < 2 ^ 64 }
    ensures after { result ≡ left.stand_after stand bytes.now }
    ensures near { result.line ≤ stand.line + length bytes.now }
{
    let mut stand = stand;
    for byte in bytes {
        stand = Stand {
            left: stand.left,
            line: line_behind(stand.line, *byte),
            last: stand.line,
        };
    }
    stand
}

// How many bytes of a text a lexeme takes that has this many after its first.
fn length_of(behind: usize, text: &[u8]) -> usize
    requires { 1 ≤ length text.now }
    ensures length { result ≡ min (behind + 1) (length text.now) }
    ensures some { 1 ≤ result }
    ensures within { result ≤ length text.now }
{
    behind.saturating_add(1).min(text.len())
}

// A token that is the last.
fn last<'a>(token: Token, line: u64, stand: Stand) -> (Placed, Left<'a>)
    ensures token { left.with_left result.0 result.1 ≡ spec.last token line }
    ensures left { left.IsLeft result.1 }
{
    (Placed { token, line }, Left { rest: None, stand })
}

// A token that takes this many bytes of a text where one stands so, and what is left of the text.
fn take_token<'a>(token: Token, stand: Stand, text: &'a [u8], count: usize) -> (Placed, Left<'a>)
    requires within { count ≤ length text.now }
    requires fits { stand.line + length text.now < 2 ^ 64 }
    ensures token { left.with_left result.0 result.1 ≡
        spec.with_token (Some token) stand (λ s. left.tokens_after s text.now count) }
    ensures left { left.IsLeft result.1 }
{
    if matches!(token, Token::Wrong) {
        return last(Token::Wrong, stand.line, stand);
    }
    if stand.left == 0 {
        return last(Token::TooMany, stand.line, stand);
    }
    let taken = Stand {
        left: stand.left - 1,
        line: stand.line,
        last: stand.last,
    };
    let left = Left {
        rest: Some(&text[count..]),
        stand: stand_after(taken, &text[..count]),
    };
    (
        Placed {
            token,
            line: stand.line,
        },
        left,
    )
}

// The first token of a text where one stands so, and what is left of the text.
fn find_token<'a>(stand: Stand, text: &'a [u8]) -> (Placed, Left<'a>)
    requires { stand.line + length text.now < 2 ^ 64 }
    ensures token { left.with_left result.0 result.1 ≡ spec.tokens_from stand 0 text.now }
    ensures left { left.IsLeft result.1 }
{
    let mut stand = stand;
    let mut rest = text;
    while !rest.is_empty() {
        let Lexeme { token, behind } = lexeme_at(rest);
        let count = length_of(behind, rest);
        if let Some(token) = token {
            return take_token(token, stand, rest, count);
        }
        stand = stand_after(stand, &rest[..count]);
        rest = &rest[count..];
    }
    last(Token::End, stand.last, stand)
}
