// The rows of files.

ghost use Rattle.std.specs.Prelude.{◌≡◌};
ghost use Rattle.iec_grammar.specs.Lines.{line_of};
ghost use Rattle.iec_grammar.specs.Files as spec;

use crate::item::Item;
use crate::row::{Row, skip, take};
use iec_tokens::{Sign, Token, Word};
use iec_tree::{Part, Section};

// Enumerations, globals and the first program.
pub fn file(token: &Token) -> Row
    ensures { line_of result ≡ spec.file token.now }
{
    match token {
        Token::Word(Word::Type) => take(
            Part::Enumeration,
            &[
                Item::Name,
                Item::Colon,
                Item::Open,
                Item::EnumerationWord,
                Item::EnumerationWords,
                Item::Semicolon,
                Item::EndType,
                Item::File,
            ],
        ),
        Token::Word(Word::VarGlobal) => take(
            Part::Section(Section::Globals),
            &[Item::Qualified(Section::Globals), Item::File],
        ),
        Token::Word(Word::Program) => take(
            Part::Program,
            &[
                Item::Name,
                Item::Sections,
                Item::Statements { in_loop: false },
                Item::EndProgram,
                Item::Programs,
            ],
        ),
        _ => Row::Refuses,
    }
}

// Further programs, or the text's end.
pub fn programs(token: &Token) -> Row
    ensures { line_of result ≡ spec.programs token.now }
{
    match token {
        Token::Word(Word::Program) => take(
            Part::Program,
            &[
                Item::Name,
                Item::Sections,
                Item::Statements { in_loop: false },
                Item::EndProgram,
                Item::Programs,
            ],
        ),
        _ => Row::Passes(None),
    }
}

// The end of a program.
pub fn end_program(token: &Token) -> Row
    ensures { line_of result ≡ spec.end_program token.now }
{
    match token {
        Token::Word(Word::EndProgram) => take(Part::ProgramEnd, &[]),
        _ => Row::Refuses,
    }
}

// Sections of a program.
pub fn sections(token: &Token) -> Row
    ensures { line_of result ≡ spec.sections token.now }
{
    match token {
        Token::Word(Word::Var) => take(
            Part::Section(Section::Locals),
            &[Item::Qualified(Section::Locals), Item::Sections],
        ),
        Token::Word(Word::VarInput) => take(
            Part::Section(Section::Inputs),
            &[Item::Declarations(Section::Inputs), Item::Sections],
        ),
        _ => Row::Passes(Some(Part::Statements)),
    }
}

// A word of an enumeration.
pub fn enumeration_word(token: &Token) -> Row
    ensures { line_of result ≡ spec.enumeration_word token.now }
{
    match token {
        Token::Name(name) => take(Part::Word(*name), &[Item::EnumerationNumber]),
        _ => Row::Refuses,
    }
}

// Its number.
pub fn enumeration_number(token: &Token) -> Row
    ensures { line_of result ≡ spec.enumeration_number token.now }
{
    match token {
        Token::Sign(Sign::Gets) => skip(&[Item::Int, Item::Numbered]),
        _ => Row::Passes(None),
    }
}

// Further words.
pub fn enumeration_words(token: &Token) -> Row
    ensures { line_of result ≡ spec.enumeration_words token.now }
{
    match token {
        Token::Sign(Sign::Comma) => skip(&[Item::EnumerationWord, Item::EnumerationWords]),
        Token::Sign(Sign::Close) => skip(&[]),
        _ => Row::Refuses,
    }
}

// The end of an enumeration.
pub fn end_type(token: &Token) -> Row
    ensures { line_of result ≡ spec.end_type token.now }
{
    match token {
        Token::Word(Word::EndType) => take(Part::EnumerationEnd, &[]),
        _ => Row::Refuses,
    }
}
