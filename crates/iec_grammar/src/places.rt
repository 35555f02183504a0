// The rows of places and calls.

ghost use Rattle.std.specs.Prelude.{◌≡◌};
ghost use Rattle.iec_grammar.specs.Lines.{line_of};
ghost use Rattle.iec_grammar.specs.Places as spec;

use crate::item::Item;
use crate::row::{Row, skip, take};
use iec_tokens::{Sign, Token};
use iec_tree::Part;

// What stands after the name that begins a statement.
pub fn behind_name(token: &Token) -> Row
    ensures { line_of result ≡ spec.behind_name token.now }
{
    match token {
        Token::Sign(Sign::Gets) => take(Part::PlaceVariable, &[Item::Expression, Item::Assign]),
        Token::Sign(Sign::OpenIndex) => take(
            Part::PlaceIndex,
            &[
                Item::Expression,
                Item::PlaceElement,
                Item::Gets,
                Item::Expression,
                Item::Assign,
            ],
        ),
        Token::Sign(Sign::Dot) => skip(&[Item::Word, Item::BehindWord]),
        Token::Sign(Sign::Open) => take(Part::Call, &[Item::FirstArgument, Item::Semicolon]),
        _ => Row::Refuses,
    }
}

// What stands after an input of a block that is assigned.
pub fn behind_word(token: &Token) -> Row
    ensures { line_of result ≡ spec.behind_word token.now }
{
    match token {
        Token::Sign(Sign::Gets) => take(Part::PlaceMember, &[Item::Expression, Item::Assign]),
        _ => Row::Refuses,
    }
}

// The end of an assignment.
pub fn assign(token: &Token) -> Row
    ensures { line_of result ≡ spec.assign token.now }
{
    match token {
        Token::Sign(Sign::Semicolon) => take(Part::Assign, &[]),
        _ => Row::Refuses,
    }
}

// The end of the index of a place.
pub fn place_element(token: &Token) -> Row
    ensures { line_of result ≡ spec.place_element token.now }
{
    match token {
        Token::Sign(Sign::CloseIndex) => take(Part::PlaceElement, &[]),
        _ => Row::Refuses,
    }
}

// An argument of a call.
pub fn argument(token: &Token) -> Row
    ensures { line_of result ≡ spec.argument token.now }
{
    match token {
        Token::Name(name) => take(Part::Argument(*name), &[Item::BehindArgument]),
        _ => Row::Refuses,
    }
}

// The first argument of a call.
pub fn first_argument(token: &Token) -> Row
    ensures { line_of result ≡ spec.first_argument token.now }
{
    match token {
        Token::Name(name) => take(
            Part::Argument(*name),
            &[Item::BehindArgument, Item::Arguments],
        ),
        Token::Sign(Sign::Close) => take(Part::CallEnd, &[]),
        _ => Row::Refuses,
    }
}

// Further arguments of a call.
pub fn arguments(token: &Token) -> Row
    ensures { line_of result ≡ spec.arguments token.now }
{
    match token {
        Token::Sign(Sign::Comma) => skip(&[Item::Argument, Item::Arguments]),
        Token::Sign(Sign::Close) => take(Part::CallEnd, &[]),
        _ => Row::Refuses,
    }
}

// What stands after the name of an argument.
pub fn behind_argument(token: &Token) -> Row
    ensures { line_of result ≡ spec.behind_argument token.now }
{
    match token {
        Token::Sign(Sign::Gets) => skip(&[Item::Expression, Item::Input]),
        Token::Sign(Sign::Into) => skip(&[Item::Target, Item::Output]),
        _ => Row::Refuses,
    }
}

// A place that an output is assigned to.
pub fn target(token: &Token) -> Row
    ensures { line_of result ≡ spec.target token.now }
{
    match token {
        Token::Name(name) => take(Part::Name(*name), &[Item::BehindTarget]),
        _ => Row::Refuses,
    }
}

// What stands after its name.
pub fn behind_target(token: &Token) -> Row
    ensures { line_of result ≡ spec.behind_target token.now }
{
    match token {
        Token::Sign(Sign::OpenIndex) => take(
            Part::PlaceIndex,
            &[Item::Expression, Item::PlaceElement],
        ),
        Token::Sign(Sign::Dot) => skip(&[Item::Word, Item::PlaceMember]),
        _ => Row::Passes(Some(Part::PlaceVariable)),
    }
}
