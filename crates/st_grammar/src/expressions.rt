// The rows of expressions.

ghost use Rattle.std.specs.Prelude.{◌≡◌};
ghost use Rattle.st_grammar.specs.Lines.{line_of};
ghost use Rattle.st_grammar.specs.Expressions as spec;

use crate::item::Item;
use crate::note::{Note, Row};
use plc_types::flag_named;
use st_tokens::{Sign, Token, Word};
use st_tree::Operator;

// A prim, and what is expected after it.
pub fn primary(behind: &'static [Item], token: &Token) -> Row
    ensures { line_of result ≡ spec.primary behind.now token.now }
{
    match token {
        Token::Number(size) => Row::Takes(Note::Number(*size), behind),
        Token::Word(Word::True) => Row::Takes(Note::Truth(true), behind),
        Token::Word(Word::False) => Row::Takes(Note::Truth(false), behind),
        Token::Name(name) => Row::Begins(Note::Name(*name), &[Item::Dot], behind),
        Token::Sign(Sign::Open) => {
            Row::Begins(Note::Opens, &[Item::Expr, Item::Parenthesis], behind)
        }
        _ => Row::Refuses,
    }
}

// An un, and what is expected after it.
pub fn unary(behind: &'static [Item], token: &Token) -> Row
    ensures { line_of result ≡ spec.unary behind.now token.now }
{
    match token {
        Token::Sign(Sign::Minus) => {
            Row::Begins(Note::Nothing, &[Item::Primary, Item::Minus], behind)
        }
        Token::Word(Word::Not) => Row::Begins(Note::Nothing, &[Item::Primary, Item::Not], behind),
        _ => primary(behind, token),
    }
}

// Further operands of `*`.
pub fn products(token: &Token) -> Row
    ensures { line_of result ≡ spec.products token.now }
{
    match token {
        Token::Sign(Sign::Times) => Row::Takes(
            Note::Nothing,
            &[Item::Unary, Item::Join(Operator::Times), Item::Products],
        ),
        _ => Row::Passes(Note::Nothing),
    }
}

// Further operands of `+` and `-`.
pub fn sums(token: &Token) -> Row
    ensures { line_of result ≡ spec.sums token.now }
{
    match token {
        Token::Sign(Sign::Plus) => Row::Takes(
            Note::Nothing,
            &[Item::Product, Item::Join(Operator::Plus), Item::Sums],
        ),
        Token::Sign(Sign::Minus) => Row::Takes(
            Note::Nothing,
            &[Item::Product, Item::Join(Operator::Minus), Item::Sums],
        ),
        _ => Row::Passes(Note::Nothing),
    }
}

// A comparison's other side.
pub fn comparisons(token: &Token) -> Row
    ensures { line_of result ≡ spec.comparisons token.now }
{
    match token {
        Token::Sign(Sign::Equal) => Row::Takes(
            Note::Nothing,
            &[Item::Sum, Item::Join(Operator::Equal)],
        ),
        Token::Sign(Sign::Different) => Row::Takes(
            Note::Nothing,
            &[Item::Sum, Item::Join(Operator::Different)],
        ),
        Token::Sign(Sign::Below) => Row::Takes(
            Note::Nothing,
            &[Item::Sum, Item::Join(Operator::Below)],
        ),
        Token::Sign(Sign::AtMost) => Row::Takes(
            Note::Nothing,
            &[Item::Sum, Item::Join(Operator::AtMost)],
        ),
        Token::Sign(Sign::Above) => Row::Takes(
            Note::Nothing,
            &[Item::Sum, Item::Join(Operator::Above)],
        ),
        Token::Sign(Sign::AtLeast) => Row::Takes(
            Note::Nothing,
            &[Item::Sum, Item::Join(Operator::AtLeast)],
        ),
        _ => Row::Passes(Note::Nothing),
    }
}

// Further operands of `AND`.
pub fn conjunctions(token: &Token) -> Row
    ensures { line_of result ≡ spec.conjunctions token.now }
{
    match token {
        Token::Word(Word::And) => Row::Takes(
            Note::Nothing,
            &[
                Item::Comparison,
                Item::Join(Operator::And),
                Item::Conjunctions,
            ],
        ),
        _ => Row::Passes(Note::Nothing),
    }
}

// Further operands of `OR`.
pub fn disjunctions(token: &Token) -> Row
    ensures { line_of result ≡ spec.disjunctions token.now }
{
    match token {
        Token::Word(Word::Or) => Row::Takes(
            Note::Nothing,
            &[
                Item::Conjunction,
                Item::Join(Operator::Or),
                Item::Disjunctions,
            ],
        ),
        _ => Row::Passes(Note::Nothing),
    }
}

// What stands after a name.
pub fn dot(token: &Token) -> Row
    ensures { line_of result ≡ spec.dot token.now }
{
    match token {
        Token::Sign(Sign::Dot) => Row::Takes(Note::Nothing, &[Item::Flag]),
        _ => Row::Passes(Note::Variable),
    }
}

// A flag.
pub fn flag(token: &Token) -> Row
    ensures { line_of result ≡ spec.flag token.now }
{
    match token {
        Token::Name(name) => match flag_named(name.bytes()) {
            Some(flag) => Row::Takes(Note::Flag(flag), &[]),
            None => Row::Refuses,
        },
        _ => Row::Refuses,
    }
}

// The end of an expression in parentheses.
pub fn parenthesis(token: &Token) -> Row
    ensures { line_of result ≡ spec.parenthesis token.now }
{
    match token {
        Token::Sign(Sign::Close) => Row::Takes(Note::ClosesParenthesis, &[]),
        _ => Row::Refuses,
    }
}
