// The rows of constants, and of words and signs alone.

ghost use Rattle.std.specs.Prelude.{◌≡◌, ◌≤◌, ◌+◌, length};
ghost use Rattle.iec_grammar.specs.Lines.{line_of};
ghost use Rattle.iec_grammar.specs.Constants as spec;

use crate::item::Item;
use crate::row::{Row, begin, skip, take};
use iec_tokens::{Number, Sign, Token, Word};
use iec_tree::Part;

// An int, and what is expected after it.
pub fn int(behind: &[Item], token: &Token) -> Row
    requires { length behind.now ≤ 9 }
    ensures { line_of result ≡ spec.int behind.now token.now }
{
    match token {
        Token::Sign(Sign::Minus) => begin(None, &[Item::NegativeInt], behind),
        Token::Number(Number::Whole(size)) => {
            let number = Number::Whole(*size);
            begin(
                Some(Part::Number {
                    negative: false,
                    number,
                }),
                &[],
                behind,
            )
        }
        Token::Name(name) => begin(Some(Part::Name(*name)), &[Item::BehindConstant], behind),
        _ => Row::Refuses,
    }
}

// An int after its minus.
pub fn negative_int(token: &Token) -> Row
    ensures { line_of result ≡ spec.negative_int token.now }
{
    match token {
        Token::Number(Number::Whole(size)) => {
            let number = Number::Whole(*size);
            take(
                Part::Number {
                    negative: true,
                    number,
                },
                &[],
            )
        }
        Token::Name(name) => take(Part::Name(*name), &[Item::BehindConstant, Item::Negative]),
        _ => Row::Refuses,
    }
}

// What stands after the name of a constant.
pub fn behind_constant(token: &Token) -> Row
    ensures { line_of result ≡ spec.behind_constant token.now }
{
    match token {
        Token::Sign(Sign::Dot) => skip(&[Item::Word, Item::ConstantWord]),
        _ => Row::Passes(Some(Part::Constant)),
    }
}

// A constant, and what is expected after it.
pub fn constant(behind: &[Item], token: &Token) -> Row
    requires { length behind.now ≤ 9 }
    ensures { line_of result ≡ spec.constant behind.now token.now }
{
    match token {
        Token::Sign(Sign::Minus) => begin(None, &[Item::NegativeConstant], behind),
        Token::Number(number) => {
            let number = *number;
            begin(
                Some(Part::Number {
                    negative: false,
                    number,
                }),
                &[],
                behind,
            )
        }
        Token::Word(Word::True) => begin(Some(Part::Truth(true)), &[], behind),
        Token::Word(Word::False) => begin(Some(Part::Truth(false)), &[], behind),
        Token::Name(name) => begin(Some(Part::Name(*name)), &[Item::BehindConstant], behind),
        _ => Row::Refuses,
    }
}

// A constant after its minus.
pub fn negative_constant(token: &Token) -> Row
    ensures { line_of result ≡ spec.negative_constant token.now }
{
    match token {
        Token::Number(number) => {
            let number = *number;
            take(
                Part::Number {
                    negative: true,
                    number,
                },
                &[],
            )
        }
        Token::Name(name) => take(Part::Name(*name), &[Item::BehindConstant, Item::Negative]),
        _ => Row::Refuses,
    }
}

// A name.
pub fn name(token: &Token) -> Row
    ensures { line_of result ≡ spec.name token.now }
{
    match token {
        Token::Name(name) => take(Part::Name(*name), &[]),
        _ => Row::Refuses,
    }
}

// A word after a point.
pub fn word_behind(token: &Token) -> Row
    ensures { line_of result ≡ spec.word_behind token.now }
{
    match token {
        Token::Name(name) => take(Part::Word(*name), &[]),
        _ => Row::Refuses,
    }
}

// A colon.
pub fn colon(token: &Token) -> Row
    ensures { line_of result ≡ spec.colon token.now }
{
    match token {
        Token::Sign(Sign::Colon) => skip(&[]),
        _ => Row::Refuses,
    }
}

// A semicolon.
pub fn semicolon(token: &Token) -> Row
    ensures { line_of result ≡ spec.semicolon token.now }
{
    match token {
        Token::Sign(Sign::Semicolon) => skip(&[]),
        _ => Row::Refuses,
    }
}

// `:=`.
pub fn gets(token: &Token) -> Row
    ensures { line_of result ≡ spec.gets token.now }
{
    match token {
        Token::Sign(Sign::Gets) => skip(&[]),
        _ => Row::Refuses,
    }
}

// `(`.
pub fn opens(token: &Token) -> Row
    ensures { line_of result ≡ spec.opens token.now }
{
    match token {
        Token::Sign(Sign::Open) => skip(&[]),
        _ => Row::Refuses,
    }
}

// `)`.
pub fn closes(token: &Token) -> Row
    ensures { line_of result ≡ spec.closes token.now }
{
    match token {
        Token::Sign(Sign::Close) => skip(&[]),
        _ => Row::Refuses,
    }
}

// `[`.
pub fn opens_index(token: &Token) -> Row
    ensures { line_of result ≡ spec.opens_index token.now }
{
    match token {
        Token::Sign(Sign::OpenIndex) => skip(&[]),
        _ => Row::Refuses,
    }
}

// `]`.
pub fn closes_index(token: &Token) -> Row
    ensures { line_of result ≡ spec.closes_index token.now }
{
    match token {
        Token::Sign(Sign::CloseIndex) => skip(&[]),
        _ => Row::Refuses,
    }
}

// `..`.
pub fn up_to(token: &Token) -> Row
    ensures { line_of result ≡ spec.up_to token.now }
{
    match token {
        Token::Sign(Sign::UpTo) => skip(&[]),
        _ => Row::Refuses,
    }
}

// `OF`.
pub fn of(token: &Token) -> Row
    ensures { line_of result ≡ spec.of_ token.now }
{
    match token {
        Token::Word(Word::Of) => skip(&[]),
        _ => Row::Refuses,
    }
}

// `TO`.
pub fn to(token: &Token) -> Row
    ensures { line_of result ≡ spec.to_ token.now }
{
    match token {
        Token::Word(Word::To) => skip(&[]),
        _ => Row::Refuses,
    }
}
