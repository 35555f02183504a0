// The lexeme at the front of a text: a token, or what stands between two.

ghost use Rattle.std.specs.Prelude.{◌≡◌, ◌≤◌, ◌<◌, length};
ghost use Rattle.iec_tokens.specs.Lexemes as spec;

use crate::byte::{Run, begins_word, is_digit, is_gap, run_length};
use crate::comment::comment_length;
use crate::digits::Radix;
use crate::name::{Name, is_name};
use crate::number::{hexadecimal_token, number_token, written_at};
use crate::sign::{sign_at, sign_text};
use crate::time::{prefix_length, time_at};
use crate::token::Token;
use crate::word::word_named;

/// A lexeme of a text: a token, or none at a blank, a line's end or a comment; and how many of its
/// bytes stand after its first.
#[derive(Clone, Copy)]
pub struct Lexeme {
    pub token: Option<Token>,
    pub behind: usize,
}

/// The lexeme at the front of a text, which has a byte.
#[tactic(auto, unfolding(crate::specs::Lexemes::lexeme_of))]
pub fn lexeme_at(text: &[u8]) -> Lexeme
    requires some { 1 ≤ length text.now }
    ensures { result ≡ spec.lexeme_of text.now }
{
    let first = text[0];
    if is_gap(first) {
        taking(None, 1)
    } else if text.starts_with(b"(*") {
        comment_lexeme(text)
    } else if text.starts_with(b"//") {
        taking(None, run_length(Run::Line, text))
    } else if prefix_length(text) != 0 {
        time_lexeme(text)
    } else if begins_word(first) {
        word_lexeme(text)
    } else if text.starts_with(b"16#") {
        hexadecimal_lexeme(text)
    } else if is_digit(first) {
        number_lexeme(text)
    } else {
        sign_lexeme(text)
    }
}

// What takes this many bytes.
fn taking(token: Option<Token>, length: usize) -> Lexeme
    ensures { result ≡ spec.taking token length }
{
    Lexeme {
        token,
        behind: length.saturating_sub(1),
    }
}

// What is no token.
fn wrong() -> Lexeme
    ensures { result ≡ spec.wrong }
{
    taking(Some(Token::Wrong), 1)
}

// The token that a word is.
#[tactic(auto, unfolding(crate::specs::Lexemes::word_token))]
fn word_token(word: &[u8]) -> Token
    ensures { result ≡ spec.word_token word.now }
{
    match word_named(word) {
        Some(reserved) => Token::Word(reserved),
        None => name_token(word),
    }
}

// The token that a word is which is not reserved.
fn name_token(word: &[u8]) -> Token
    ensures { result ≡ spec.name_token word.now }
{
    if is_name(word) {
        Token::Name(Name::new(word))
    } else {
        Token::Wrong
    }
}

// A word at the front.
fn word_lexeme(text: &[u8]) -> Lexeme
    ensures { result ≡ spec.word_lexeme text.now }
{
    let word = &text[..run_length(Run::Word, text)];
    taking(Some(word_token(word)), word.len())
}

// A number at the front.
fn number_lexeme(text: &[u8]) -> Lexeme
    ensures { result ≡ spec.number_lexeme text.now }
{
    let written = written_at(Radix::Decimal, text);
    taking(Some(number_token(written)), written.length)
}

// A hexadecimal number at the front, which begins with `16#`.
fn hexadecimal_lexeme(text: &[u8]) -> Lexeme
    requires begins { 3 ≤ length text.now }
    ensures { result ≡ spec.hexadecimal_lexeme text.now }
{
    let written = written_at(Radix::Hexadecimal, &text[3..]);
    taking(Some(hexadecimal_token(written)), 3 + written.length)
}

// A time at the front, which begins with `T#` or `TIME#`.
#[tactic(auto, unfolding(crate::specs::Lexemes::time_lexeme))]
fn time_lexeme(text: &[u8]) -> Lexeme
    ensures { result ≡ spec.time_lexeme text.now }
{
    let prefix = prefix_length(text);
    match time_at(&text[prefix..]) {
        Some((time, length)) => taking(Some(Token::Number(time)), prefix + length),
        None => wrong(),
    }
}

// A comment at the front.
#[tactic(auto, unfolding(crate::specs::Lexemes::comment_lexeme))]
fn comment_lexeme(text: &[u8]) -> Lexeme
    requires begins { 2 ≤ length text.now }
    ensures { result ≡ spec.comment_lexeme text.now }
{
    match comment_length(&text[2..]) {
        Some(length) => taking(None, 2 + length),
        None => wrong(),
    }
}

// A sign at the front.
#[tactic(auto, unfolding(crate::specs::Lexemes::sign_lexeme))]
fn sign_lexeme(text: &[u8]) -> Lexeme
    ensures { result ≡ spec.sign_lexeme text.now }
{
    match sign_at(text) {
        Some(sign) => taking(Some(Token::Sign(sign)), sign_text(sign).len()),
        None => wrong(),
    }
}
