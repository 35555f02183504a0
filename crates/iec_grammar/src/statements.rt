// The rows of statements.

ghost use Rattle.std.specs.Prelude.{◌≡◌};
ghost use Rattle.iec_grammar.specs.Lines.{line_of};
ghost use Rattle.iec_grammar.specs.Statements as spec;

use crate::constants::int;
use crate::item::Item;
use crate::places::{behind_name, behind_word};
use crate::row::{Row, skip, take};
use iec_tokens::{Sign, Token, Word};
use iec_tree::Part;

// A statement that begins with a word or is empty, what is expected after it, and the row of
// another token.
fn statement(in_loop: bool, behind: Item, other: Row, token: &Token) -> Row
    ensures { line_of result ≡ spec.statement in_loop behind (line_of other) token.now }
{
    match token {
        Token::Word(Word::If) => if_row(in_loop, behind),
        Token::Word(Word::Case) => case_row(in_loop, behind),
        Token::Word(Word::For) => for_row(behind),
        Token::Word(Word::Exit) => exit_row(in_loop, behind, other),
        Token::Word(Word::Return) => take(Part::Return, &[Item::Semicolon, behind]),
        Token::Sign(Sign::Semicolon) => take(Part::Empty, &[behind]),
        _ => other,
    }
}

// An `IF`.
fn if_row(in_loop: bool, behind: Item) -> Row
    ensures { line_of result ≡ spec.if_line in_loop behind }
{
    take(
        Part::If,
        &[
            Item::Expression,
            Item::Then,
            Item::Statements { in_loop },
            Item::Else { in_loop },
            Item::Closed,
            behind,
        ],
    )
}

// A `CASE`.
fn case_row(in_loop: bool, behind: Item) -> Row
    ensures { line_of result ≡ spec.case_line in_loop behind }
{
    take(
        Part::Case,
        &[
            Item::Expression,
            Item::Of,
            Item::Branches { in_loop },
            Item::Closed,
            behind,
        ],
    )
}

// A `FOR`.
fn for_row(behind: Item) -> Row
    ensures { line_of result ≡ spec.for_line behind }
{
    take(
        Part::For,
        &[
            Item::Name,
            Item::Gets,
            Item::Int,
            Item::To,
            Item::Int,
            Item::By,
            Item::Statements { in_loop: true },
            Item::EndFor,
            Item::Closed,
            behind,
        ],
    )
}

// An `EXIT`.
fn exit_row(in_loop: bool, behind: Item, other: Row) -> Row
    ensures { line_of result ≡ spec.exit_line in_loop behind (line_of other) }
{
    if in_loop {
        take(Part::Exit, &[Item::Semicolon, behind])
    } else {
        other
    }
}

// Statements, as many as there are.
pub fn statements(in_loop: bool, token: &Token) -> Row
    ensures { line_of result ≡ spec.statements in_loop token.now }
{
    match token {
        Token::Name(name) => take(
            Part::Name(*name),
            &[Item::BehindName, Item::Statements { in_loop }],
        ),
        _ => statement(
            in_loop,
            Item::Statements { in_loop },
            Row::Passes(None),
            token,
        ),
    }
}

// A semicolon or none.
pub fn closed(token: &Token) -> Row
    ensures { line_of result ≡ spec.closed token.now }
{
    match token {
        Token::Sign(Sign::Semicolon) => skip(&[]),
        _ => Row::Passes(None),
    }
}

// `THEN`.
pub fn then(token: &Token) -> Row
    ensures { line_of result ≡ spec.then_ token.now }
{
    match token {
        Token::Word(Word::Then) => take(Part::Then, &[]),
        _ => Row::Refuses,
    }
}

// What follows the statements of a condition.
pub fn otherwise(in_loop: bool, token: &Token) -> Row
    ensures { line_of result ≡ spec.else_ in_loop token.now }
{
    match token {
        Token::Word(Word::Elsif) => take(
            Part::Elsif,
            &[
                Item::Expression,
                Item::Then,
                Item::Statements { in_loop },
                Item::Else { in_loop },
            ],
        ),
        Token::Word(Word::Else) => {
            take(Part::Else, &[Item::Statements { in_loop }, Item::EndIf])
        }
        Token::Word(Word::EndIf) => take(Part::IfEnd, &[]),
        _ => Row::Refuses,
    }
}

// `END_IF`.
pub fn end_if(token: &Token) -> Row
    ensures { line_of result ≡ spec.end_if token.now }
{
    match token {
        Token::Word(Word::EndIf) => take(Part::IfEnd, &[]),
        _ => Row::Refuses,
    }
}

// `OF` after a selector.
pub fn of(token: &Token) -> Row
    ensures { line_of result ≡ spec.of_ token.now }
{
    match token {
        Token::Word(Word::Of) => take(Part::Of, &[]),
        _ => Row::Refuses,
    }
}

// The first label, or what ends the statement.
pub fn branches(in_loop: bool, token: &Token) -> Row
    ensures { line_of result ≡ spec.branches in_loop token.now }
{
    match token {
        Token::Word(Word::Else) => {
            take(Part::Else, &[Item::Statements { in_loop }, Item::EndCase])
        }
        Token::Word(Word::EndCase) => take(Part::CaseEnd, &[]),
        _ => int(
            &[Item::LabelEnd, Item::Labels, Item::Branch { in_loop }],
            token,
        ),
    }
}

// Statements of a branch, and the next label or what ends the statement.
pub fn branch(in_loop: bool, token: &Token) -> Row
    ensures { line_of result ≡ spec.branch in_loop token.now }
{
    match token {
        Token::Name(name) => take(
            Part::Name(*name),
            &[Item::BehindEither, Item::Branch { in_loop }],
        ),
        _ => statement(
            in_loop,
            Item::Branch { in_loop },
            branches(in_loop, token),
            token,
        ),
    }
}

// The second number of a label, or none.
pub fn label_end(token: &Token) -> Row
    ensures { line_of result ≡ spec.label_end token.now }
{
    match token {
        Token::Sign(Sign::UpTo) => skip(&[Item::Int, Item::Range]),
        _ => Row::Passes(Some(Part::Label)),
    }
}

// Further labels of a branch.
pub fn labels(token: &Token) -> Row
    ensures { line_of result ≡ spec.labels token.now }
{
    match token {
        Token::Sign(Sign::Comma) => skip(&[Item::Int, Item::LabelEnd, Item::Labels]),
        Token::Sign(Sign::Colon) => take(Part::Branch, &[]),
        _ => Row::Refuses,
    }
}

// What stands after the constant that begins a label.
fn behind_label(part: Part, token: &Token) -> Row
    ensures { line_of result ≡ spec.behind_label part token.now }
{
    match token {
        Token::Sign(Sign::UpTo) => take(part, &[Item::Int, Item::Range, Item::Labels]),
        Token::Sign(Sign::Comma) => take(
            part,
            &[Item::Label, Item::Int, Item::LabelEnd, Item::Labels],
        ),
        Token::Sign(Sign::Colon) => take(part, &[Item::Label, Item::BranchBegins]),
        _ => Row::Refuses,
    }
}

// What stands after a name that begins a statement or a label.
pub fn behind_either(token: &Token) -> Row
    ensures { line_of result ≡ spec.behind_either token.now }
{
    match token {
        Token::Sign(Sign::Gets) | Token::Sign(Sign::OpenIndex) | Token::Sign(Sign::Open) => {
            behind_name(token)
        }
        Token::Sign(Sign::Dot) => skip(&[Item::Word, Item::BehindEitherWord]),
        _ => behind_label(Part::Constant, token),
    }
}

// What stands after such a name and a word.
pub fn behind_either_word(token: &Token) -> Row
    ensures { line_of result ≡ spec.behind_either_word token.now }
{
    match token {
        Token::Sign(Sign::Gets) => behind_word(token),
        _ => behind_label(Part::ConstantWord, token),
    }
}

// `END_CASE`.
pub fn end_case(token: &Token) -> Row
    ensures { line_of result ≡ spec.end_case token.now }
{
    match token {
        Token::Word(Word::EndCase) => take(Part::CaseEnd, &[]),
        _ => Row::Refuses,
    }
}

// `BY` and a number, or none, and `DO`.
pub fn by(token: &Token) -> Row
    ensures { line_of result ≡ spec.by_ token.now }
{
    match token {
        Token::Word(Word::By) => skip(&[Item::Int, Item::Do]),
        Token::Word(Word::Do) => take(Part::Do { by: false }, &[]),
        _ => Row::Refuses,
    }
}

// `DO` after `BY` and a number.
pub fn do_row(token: &Token) -> Row
    ensures { line_of result ≡ spec.do_ token.now }
{
    match token {
        Token::Word(Word::Do) => take(Part::Do { by: true }, &[]),
        _ => Row::Refuses,
    }
}

// `END_FOR`.
pub fn end_for(token: &Token) -> Row
    ensures { line_of result ≡ spec.end_for token.now }
{
    match token {
        Token::Word(Word::EndFor) => take(Part::ForEnd, &[]),
        _ => Row::Refuses,
    }
}
