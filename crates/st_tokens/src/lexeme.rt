// The lexeme at the front of a text: a token, or what stands between two.

ghost use Rattle.std.specs.Prelude.{◌≡◌, ◌≤◌, length};
ghost use Rattle.st_tokens.specs.Numbers as numbers;
ghost use Rattle.st_tokens.specs.Lexemes as spec;

use crate::byte::{Run, is_digit, is_gap, is_letter, run_length};
use crate::comment::comment_length;
use crate::number::number_of;
use crate::sign::{sign_at, sign_text};
use crate::token::Token;
use crate::word::word_named;
use plc_types::{Name, is_name, kind_in};

/// A lexeme of a text: a token, or none at a blank, a line's end or a comment; and how many of its
/// bytes stand after its first.
#[derive(Clone, Copy)]
pub struct Lexeme {
    pub token: Option<Token>,
    pub behind: usize,
}

/// The lexeme at the front of a text, which has a byte.
#[tactic(auto, unfolding(crate::specs::Lexemes::lexeme_of))]
pub fn lexeme_at(text: &[u8]) -> Lexeme
    requires some { 1 ≤ length text.now }
    ensures { result ≡ spec.lexeme_of text.now }
{
    let first = text[0];
    if is_gap(first) {
        Lexeme {
            token: None,
            behind: 0,
        }
    } else if is_letter(first) {
        word_lexeme(text)
    } else if is_digit(first) {
        number_lexeme(text)
    } else if text.starts_with(b"(*") {
        comment_lexeme(text)
    } else {
        sign_lexeme(text)
    }
}

// The token that a word is.
#[tactic(auto, unfolding(crate::specs::Lexemes::word_token))]
fn word_token(word: &[u8]) -> Token
    ensures { result ≡ spec.word_token word.now }
{
    match word_named(word) {
        Some(reserved) => Token::Word(reserved),
        None => name_token(word),
    }
}

// The token that a word is which is not reserved. The kinds are those of version 2.
fn name_token(word: &[u8]) -> Token
    ensures { result ≡ spec.name_token word.now }
{
    if is_name(word) {
        return Token::Name(Name::new(word));
    }
    match kind_in(2, word) {
        Some(kind) => Token::Kind(kind),
        None => Token::Wrong,
    }
}

// A word at the front.
fn word_lexeme(text: &[u8]) -> Lexeme
    ensures { result ≡ spec.lexeme (spec.word_token (spec.word_of text.now))
        (spec.word_of text.now) }
{
    let word = &text[..run_length(Run::Word, text)];
    Lexeme {
        token: Some(word_token(word)),
        behind: word.len().saturating_sub(1),
    }
}

// A number at the front.
fn number_lexeme(text: &[u8]) -> Lexeme
    ensures { result ≡ spec.lexeme
        (Token.Number (numbers.number_of (spec.digits_of text.now))) (spec.digits_of text.now) }
{
    let digits = &text[..run_length(Run::Digits, text)];
    Lexeme {
        token: Some(Token::Number(number_of(digits))),
        behind: digits.len().saturating_sub(1),
    }
}

// A comment at the front.
#[tactic(auto, unfolding(crate::specs::Lexemes::comment_lexeme))]
fn comment_lexeme(text: &[u8]) -> Lexeme
    requires opens { 2 ≤ length text.now }
    ensures { result ≡ spec.comment_lexeme text.now }
{
    let inside = &text[2..];
    match comment_length(inside) {
        Some(length) => Lexeme {
            token: None,
            behind: 1 + run_length(Run::Ascii, &inside[..length]),
        },
        None => wrong(),
    }
}

// A sign at the front.
#[tactic(auto, unfolding(crate::specs::Lexemes::sign_lexeme))]
fn sign_lexeme(text: &[u8]) -> Lexeme
    ensures { result ≡ spec.sign_lexeme text.now }
{
    match sign_at(text) {
        Some(sign) => Lexeme {
            token: Some(Token::Sign(sign)),
            behind: sign_text(sign).len().saturating_sub(1),
        },
        None => wrong(),
    }
}

// What is no token.
fn wrong() -> Lexeme
    ensures { result ≡ spec.wrong }
{
    Lexeme {
        token: Some(Token::Wrong),
        behind: 0,
    }
}
