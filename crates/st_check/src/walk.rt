// Reading the tokens of a text, lexeme after lexeme.

ghost use Rattle.std.specs.Prelude.{◌≡◌, ◌≤◌, ◌<◌, ◌+◌, ◌^◌, List, IfOk, OnOk, drop, length};
ghost use Rattle.st_check.specs.Reading as spec;
ghost use Rattle.st_tokens.specs.Tokens as tokens;
ghost use Rattle.st_tokens.specs.Tokens.{Placed};

use crate::reader::Reader;
use motion_numbers::OutOfMemory;
use st_tokens::{Token, lexeme_at};

/// Where a reader walks: the line, that of the byte before, and how many bytes of the lexeme before
/// are left.
#[derive(Clone, Copy)]
struct Place {
    line: u64,
    last: u64,
    behind: usize,
}

// The line after a byte.
fn line_behind(line: u64, byte: u8) -> u64
    requires { line + 1 < 2 ^ 64 }
    ensures behind { result ≡ tokens.line_behind line byte }
    ensures near { result ≤ line + 1 }
{
    if byte == b'\n' { line + 1 } else { line }
}

// Takes the token of a lexeme in this line, where it has one.
fn take_lexeme(reader: &mut Reader, token: Option<Token>, line: u64) -> Result<(), OutOfMemory>
    ensures { OnOk result ((more : List Placed) →
        spec.run reader.new more ≡ spec.run reader.old (tokens.with_token line token more)) }
{
    match token {
        Some(token) => reader.step(&token, line),
        None => Ok(()),
    }
}

// Goes over the first byte of what is left of a text.
fn take_byte(reader: &mut Reader, place: Place, rest: &[u8]) -> Result<Place, OutOfMemory>
    requires some { 1 ≤ length rest.now }
    requires fits { place.line + 1 < 2 ^ 64 }
    ensures tokens { IfOk result (λ p.
        spec.run reader.new (tokens.tokens_from p.line p.behind (drop 1 rest.now)) ≡
        spec.run reader.old (tokens.tokens_from place.line place.behind rest.now)) }
    ensures last { IfOk result (λ p. tokens.last_line_from p.line p.last (drop 1 rest.now) ≡
        tokens.last_line_from place.line place.last rest.now) }
    ensures near { IfOk result (λ p. p.line ≤ place.line + 1) }
{
    let line = line_behind(place.line, rest[0]);
    if 0 < place.behind {
        return Ok(Place {
            line,
            last: place.line,
            behind: place.behind - 1,
        });
    }
    let lexeme = lexeme_at(rest);
    take_lexeme(reader, lexeme.token, place.line)?;
    Ok(Place {
        line,
        last: place.line,
        behind: lexeme.behind,
    })
}

// What stands after the first byte.
fn behind_first(rest: &[u8]) -> &[u8]
    requires some { 1 ≤ length rest.now }
    ensures behind { result.now ≡ drop 1 rest.now }
    ensures shorter { length result.now + 1 ≡ length rest.now }
{
    match rest {
        [_, behind @ ..] => behind,
        [] => rest,
    }
}

/// Takes the tokens of a text, up to the first that doesn't fit.
#[tactic(auto, unfolding(st_tokens::specs::Tokens::tokens_of))]
pub fn read_tokens(text: &[u8], reader: &mut Reader) -> Result<(), OutOfMemory>
    ensures { OnOk result (reader.new ≡ spec.run reader.old (tokens.tokens_of text.now)) }
{
    let mut place = Place {
        line: 1,
        last: 1,
        behind: 0,
    };
    let mut rest = text;
    while !rest.is_empty() {
        if reader.is_stopped() {
            return Ok(());
        }
        place = take_byte(reader, place, rest)?;
        rest = behind_first(rest);
    }
    reader.step(&Token::End, place.last)
}
