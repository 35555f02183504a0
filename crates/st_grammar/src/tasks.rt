// The rows of tasks and declarations.

ghost use Rattle.std.specs.Prelude.{◌≡◌};
ghost use Rattle.st_grammar.specs.Lines.{line_of};
ghost use Rattle.st_grammar.specs.Tasks as spec;

use crate::item::Item;
use crate::note::{Note, Row};
use plc_types::{BlockKind, kind_in};
use st_tokens::{Sign, Token, Word};

// A task, and others.
pub fn file(token: &Token) -> Row
    ensures { line_of result ≡ spec.file token.now }
{
    match token {
        Token::Word(Word::Program) => Row::Takes(
            Note::Program,
            &[
                Item::TaskName,
                Item::Var,
                Item::Declarations,
                Item::Statements,
                Item::EndProgram,
                Item::Tasks,
            ],
        ),
        _ => Row::Refuses,
    }
}

// Another task, or the end.
pub fn tasks(token: &Token) -> Row
    ensures { line_of result ≡ spec.tasks token.now }
{
    match token {
        Token::End => Row::Takes(Note::End, &[]),
        _ => file(token),
    }
}

// The name of a task.
pub fn task_name(token: &Token) -> Row
    ensures { line_of result ≡ spec.task_name token.now }
{
    match token {
        Token::Name(name) => Row::Takes(Note::TaskName(*name), &[]),
        _ => Row::Refuses,
    }
}

// The end of a task.
pub fn end_program(token: &Token) -> Row
    ensures { line_of result ≡ spec.end_program token.now }
{
    match token {
        Token::Word(Word::EndProgram) => Row::Takes(Note::EndProgram, &[]),
        _ => Row::Refuses,
    }
}

// A word alone.
pub fn var(token: &Token) -> Row
    ensures { line_of result ≡ spec.var token.now }
{
    match token {
        Token::Word(Word::Var) => Row::Takes(Note::Nothing, &[]),
        _ => Row::Refuses,
    }
}

// A sign alone.
pub fn colon(token: &Token) -> Row
    ensures { line_of result ≡ spec.colon token.now }
{
    match token {
        Token::Sign(Sign::Colon) => Row::Takes(Note::Nothing, &[]),
        _ => Row::Refuses,
    }
}

// A sign alone.
pub fn semicolon(token: &Token) -> Row
    ensures { line_of result ≡ spec.semicolon token.now }
{
    match token {
        Token::Sign(Sign::Semicolon) => Row::Takes(Note::Nothing, &[]),
        _ => Row::Refuses,
    }
}

// A sign alone.
pub fn open(token: &Token) -> Row
    ensures { line_of result ≡ spec.opens token.now }
{
    match token {
        Token::Sign(Sign::Open) => Row::Takes(Note::Nothing, &[]),
        _ => Row::Refuses,
    }
}

// A sign alone.
pub fn close(token: &Token) -> Row
    ensures { line_of result ≡ spec.closes token.now }
{
    match token {
        Token::Sign(Sign::Close) => Row::Takes(Note::Nothing, &[]),
        _ => Row::Refuses,
    }
}

// A sign alone.
pub fn gets(token: &Token) -> Row
    ensures { line_of result ≡ spec.gets token.now }
{
    match token {
        Token::Sign(Sign::Gets) => Row::Takes(Note::Nothing, &[]),
        _ => Row::Refuses,
    }
}

// Declarations, and their end.
pub fn declarations(token: &Token) -> Row
    ensures { line_of result ≡ spec.declarations token.now }
{
    match token {
        Token::Name(name) => Row::Takes(
            Note::Declares(*name),
            &[Item::Colon, Item::Sort, Item::Declarations],
        ),
        Token::Word(Word::EndVar) => Row::Takes(Note::Body, &[]),
        _ => Row::Refuses,
    }
}

// A block of this kind.
fn block(kind: BlockKind) -> Row
    ensures { line_of result ≡ spec.block kind }
{
    Row::Takes(
        Note::Block(kind),
        &[Item::Open, Item::Object, Item::Close, Item::Semicolon],
    )
}

// What is declared. The kinds are those of version 2.
pub fn sort(token: &Token) -> Row
    ensures { line_of result ≡ spec.sort token.now }
{
    match token {
        Token::Word(Word::Bool) => Row::Takes(Note::Nothing, &[Item::BoolStart]),
        Token::Word(Word::Dint) => Row::Takes(Note::Nothing, &[Item::DintStart]),
        Token::Name(name) => match kind_in(2, name.bytes()) {
            Some(kind) => block(kind),
            None => Row::Refuses,
        },
        Token::Kind(kind) => block(*kind),
        _ => Row::Refuses,
    }
}

// What a BOOL begins with.
pub fn bool_start(token: &Token) -> Row
    ensures { line_of result ≡ spec.bool_start token.now }
{
    match token {
        Token::Sign(Sign::Semicolon) => Row::Takes(Note::Bool(false), &[]),
        Token::Sign(Sign::Gets) => Row::Takes(Note::Nothing, &[Item::Truth, Item::Semicolon]),
        _ => Row::Refuses,
    }
}

// A truth value.
pub fn truth(token: &Token) -> Row
    ensures { line_of result ≡ spec.truth token.now }
{
    match token {
        Token::Word(Word::True) => Row::Takes(Note::Bool(true), &[]),
        Token::Word(Word::False) => Row::Takes(Note::Bool(false), &[]),
        _ => Row::Refuses,
    }
}

// What a DINT begins with.
pub fn dint_start(token: &Token) -> Row
    ensures { line_of result ≡ spec.dint_start token.now }
{
    match token {
        Token::Sign(Sign::Semicolon) => Row::Takes(
            Note::Dint {
                negative: false,
                size: 0,
            },
            &[],
        ),
        Token::Sign(Sign::Gets) => Row::Takes(Note::Nothing, &[Item::Signed, Item::Semicolon]),
        _ => Row::Refuses,
    }
}

// A number with a minus or none.
pub fn signed(token: &Token) -> Row
    ensures { line_of result ≡ spec.signed token.now }
{
    match token {
        Token::Sign(Sign::Minus) => Row::Takes(Note::Nothing, &[Item::Negative]),
        Token::Number(size) => Row::Takes(
            Note::Dint {
                negative: false,
                size: *size,
            },
            &[],
        ),
        _ => Row::Refuses,
    }
}

// A number after a minus.
pub fn negative(token: &Token) -> Row
    ensures { line_of result ≡ spec.negative token.now }
{
    match token {
        Token::Number(size) => Row::Takes(
            Note::Dint {
                negative: true,
                size: *size,
            },
            &[],
        ),
        _ => Row::Refuses,
    }
}

// What a block acts on.
pub fn object(token: &Token) -> Row
    ensures { line_of result ≡ spec.object token.now }
{
    match token {
        Token::Name(name) => Row::Takes(Note::Object(*name), &[]),
        _ => Row::Refuses,
    }
}
