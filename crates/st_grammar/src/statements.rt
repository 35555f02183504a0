// The rows of statements.

ghost use Rattle.std.specs.Prelude.{◌≡◌, ◌∷◌};
ghost use Rattle.st_grammar.specs.Lines.{line_of};
ghost use Rattle.st_grammar.specs.Statements as spec;

use crate::item::Item;
use crate::note::{Note, Row};
use line_text::says;
use st_tokens::{Sign, Token, Word};

// Statements.
pub fn statements(token: &Token) -> Row
    ensures { line_of result ≡ spec.statements token.now }
{
    match token {
        Token::Name(name) => Row::Takes(
            Note::Statement(*name),
            &[Item::BehindName, Item::Statements],
        ),
        Token::Word(Word::If) => Row::Takes(
            Note::If,
            &[
                Item::Expr,
                Item::Then,
                Item::Statements,
                Item::Else,
                Item::Semicolon,
                Item::Statements,
            ],
        ),
        Token::Word(Word::Case) => Row::Takes(
            Note::Case,
            &[
                Item::Expr,
                Item::Of,
                Item::Branches,
                Item::Semicolon,
                Item::Statements,
            ],
        ),
        _ => Row::Passes(Note::Nothing),
    }
}

// What a name does.
pub fn behind_name(token: &Token) -> Row
    ensures { line_of result ≡ spec.behind_name token.now }
{
    match token {
        Token::Sign(Sign::Gets) => Row::Takes(Note::Sets, &[Item::Expr, Item::SetEnd]),
        Token::Sign(Sign::Open) => Row::Takes(
            Note::Calls,
            &[
                Item::Execute,
                Item::Gets,
                Item::Expr,
                Item::Executed,
                Item::Keys,
                Item::CallEnd,
            ],
        ),
        _ => Row::Refuses,
    }
}

// The end of a value.
pub fn set_end(token: &Token) -> Row
    ensures { line_of result ≡ spec.set_end token.now }
{
    match token {
        Token::Sign(Sign::Semicolon) => Row::Takes(Note::SetEnd, &[]),
        _ => Row::Refuses,
    }
}

// The first key of a call.
pub fn execute(token: &Token) -> Row
    ensures { line_of result ≡ spec.execute token.now }
{
    match token {
        Token::Name(name) if says(name.bytes(), b"execute") => Row::Takes(Note::Nothing, &[]),
        _ => Row::Refuses,
    }
}

// Another key, or the end.
pub fn keys(token: &Token) -> Row
    ensures { line_of result ≡ spec.keys token.now }
{
    match token {
        Token::Sign(Sign::Comma) => Row::Takes(Note::Nothing, &[Item::Key, Item::Keys]),
        Token::Sign(Sign::Close) => Row::Takes(Note::Nothing, &[]),
        _ => Row::Refuses,
    }
}

// What is expected after a key.
fn value_of(key: &[u8]) -> &'static [Item]
    ensures { result.now ≡ (Item.Gets ∷ spec.value_of key.now) }
{
    if says(key, b"mode") {
        &[Item::Gets, Item::Mode]
    } else if says(key, b"master") {
        &[Item::Gets, Item::Master]
    } else {
        &[Item::Gets, Item::Expr, Item::Given]
    }
}

// A key.
pub fn key(token: &Token) -> Row
    ensures { line_of result ≡ spec.key token.now }
{
    match token {
        Token::Name(name) => Row::Takes(Note::Key(*name), value_of(name.bytes())),
        _ => Row::Refuses,
    }
}

// The word of a mode.
pub fn mode(token: &Token) -> Row
    ensures { line_of result ≡ spec.mode token.now }
{
    match token {
        Token::Name(name) => Row::Takes(Note::Mode(*name), &[]),
        _ => Row::Refuses,
    }
}

// The name of a master.
pub fn master(token: &Token) -> Row
    ensures { line_of result ≡ spec.master token.now }
{
    match token {
        Token::Name(name) => Row::Takes(Note::Master(*name), &[]),
        _ => Row::Refuses,
    }
}

// The end of a call.
pub fn call_end(token: &Token) -> Row
    ensures { line_of result ≡ spec.call_end token.now }
{
    match token {
        Token::Sign(Sign::Semicolon) => Row::Takes(Note::CallEnd, &[]),
        _ => Row::Refuses,
    }
}

// A word alone.
pub fn then(token: &Token) -> Row
    ensures { line_of result ≡ spec.then_ token.now }
{
    match token {
        Token::Word(Word::Then) => Row::Takes(Note::Then, &[]),
        _ => Row::Refuses,
    }
}

// The other part of an `IF`, or its end.
pub fn otherwise(token: &Token) -> Row
    ensures { line_of result ≡ spec.else_ token.now }
{
    match token {
        Token::Word(Word::Else) => Row::Takes(Note::Else, &[Item::Statements, Item::EndIf]),
        Token::Word(Word::EndIf) => Row::Takes(Note::NoElse { case: false }, &[]),
        _ => Row::Refuses,
    }
}

// A word alone.
pub fn end_if(token: &Token) -> Row
    ensures { line_of result ≡ spec.end_if token.now }
{
    match token {
        Token::Word(Word::EndIf) => Row::Takes(Note::Closes { case: false }, &[]),
        _ => Row::Refuses,
    }
}

// A word alone.
pub fn of(token: &Token) -> Row
    ensures { line_of result ≡ spec.of token.now }
{
    match token {
        Token::Word(Word::Of) => Row::Takes(Note::Of, &[]),
        _ => Row::Refuses,
    }
}

// Branches, and what ends them.
pub fn branches(token: &Token) -> Row
    ensures { line_of result ≡ spec.branches token.now }
{
    match token {
        Token::Sign(Sign::Minus) => Row::Takes(
            Note::Nothing,
            &[
                Item::NegativeBranch,
                Item::Colon,
                Item::Statements,
                Item::Branches,
            ],
        ),
        Token::Number(size) => Row::Takes(
            Note::Branch {
                negative: false,
                size: *size,
            },
            &[Item::Colon, Item::Statements, Item::Branches],
        ),
        Token::Word(Word::Else) => Row::Takes(Note::Else, &[Item::Statements, Item::EndCase]),
        Token::Word(Word::EndCase) => Row::Takes(Note::NoElse { case: true }, &[]),
        _ => Row::Refuses,
    }
}

// A number after a minus.
pub fn negative_branch(token: &Token) -> Row
    ensures { line_of result ≡ spec.negative_branch token.now }
{
    match token {
        Token::Number(size) => Row::Takes(
            Note::Branch {
                negative: true,
                size: *size,
            },
            &[],
        ),
        _ => Row::Refuses,
    }
}

// A word alone.
pub fn end_case(token: &Token) -> Row
    ensures { line_of result ≡ spec.end_case token.now }
{
    match token {
        Token::Word(Word::EndCase) => Row::Takes(Note::Closes { case: true }, &[]),
        _ => Row::Refuses,
    }
}
