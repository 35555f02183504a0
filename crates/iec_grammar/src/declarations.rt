// The rows of declarations.

ghost use Rattle.std.specs.Prelude.{◌≡◌};
ghost use Rattle.iec_grammar.specs.Lines.{line_of};
ghost use Rattle.iec_grammar.specs.Declarations as spec;

use crate::constants::constant;
use crate::item::Item;
use crate::row::{Row, skip, take};
use iec_tokens::{Name, Sign, Token, Word};
use iec_tree::{
    Elementary, Motion, Part, Section, Standard, elementary_named, motion_named, standard_named,
};

// A declaration, or the end of the section.
pub fn declarations(section: Section, token: &Token) -> Row
    ensures { line_of result ≡ spec.declarations section token.now }
{
    match token {
        Token::Name(name) => take(
            Part::Declares(*name),
            &[
                Item::Names,
                Item::Type(section),
                Item::Initial,
                Item::DeclarationEnd,
                Item::Declarations(section),
            ],
        ),
        Token::Word(Word::EndVar) => take(Part::SectionEnd, &[]),
        _ => Row::Refuses,
    }
}

// `CONSTANT`, or the first declaration.
pub fn qualified(section: Section, token: &Token) -> Row
    ensures { line_of result ≡ spec.qualified section token.now }
{
    match token {
        Token::Word(Word::Constant) => take(
            Part::Section(Section::Constants),
            &[Item::Declarations(Section::Constants)],
        ),
        _ => declarations(section, token),
    }
}

// A further name of a declaration.
pub fn declared(token: &Token) -> Row
    ensures { line_of result ≡ spec.declared token.now }
{
    match token {
        Token::Name(name) => take(Part::Declares(*name), &[]),
        _ => Row::Refuses,
    }
}

// Further names of a declaration.
pub fn names(token: &Token) -> Row
    ensures { line_of result ≡ spec.names token.now }
{
    match token {
        Token::Sign(Sign::Comma) => skip(&[Item::Declared, Item::Names]),
        Token::Sign(Sign::Colon) => skip(&[]),
        _ => Row::Refuses,
    }
}

// The end of a declaration.
pub fn declaration_end(token: &Token) -> Row
    ensures { line_of result ≡ spec.declaration_end token.now }
{
    match token {
        Token::Sign(Sign::Semicolon) => take(Part::DeclarationEnd, &[]),
        _ => Row::Refuses,
    }
}

// A standard block in a section.
fn standard_in(section: Section, standard: Standard) -> Row
    ensures { line_of result ≡ spec.standard_in section standard }
{
    match section {
        Section::Constants => Row::Refuses,
        _ => take(Part::Standard(standard), &[]),
    }
}

// A motion block in a section.
fn motion_in(section: Section, motion: Motion) -> Row
    ensures { line_of result ≡ spec.motion_in section motion }
{
    match section {
        Section::Constants | Section::Globals => Row::Refuses,
        _ => take(Part::Motion(motion), &[Item::Object]),
    }
}

// The type that is named so.
#[tactic(auto, unfolding(crate::specs::Declarations::named))]
fn named(
    elementary: Option<Elementary>,
    standard: Option<Standard>,
    motion: Option<Motion>,
    section: Section,
    name: &Name,
) -> Row
    ensures { line_of result ≡ spec.named elementary standard motion section name.now }
{
    match elementary {
        Some(elementary) => take(Part::Elementary(elementary), &[]),
        None => match standard {
            Some(standard) => standard_in(section, standard),
            None => match motion {
                Some(motion) => motion_in(section, motion),
                None => take(Part::Named(*name), &[]),
            },
        },
    }
}

// The type of this name.
fn type_named(section: Section, name: &Name) -> Row
    ensures { line_of result ≡ spec.type_named section name.now }
{
    let bytes = name.bytes();
    named(
        elementary_named(bytes),
        standard_named(bytes),
        motion_named(bytes),
        section,
        name,
    )
}

// A type.
pub fn type_of(section: Section, token: &Token) -> Row
    ensures { line_of result ≡ spec.type_of section token.now }
{
    match token {
        Token::Name(name) => type_named(section, name),
        Token::Word(Word::Array) => take(
            Part::Array,
            &[
                Item::OpenIndex,
                Item::Int,
                Item::UpTo,
                Item::Int,
                Item::CloseIndex,
                Item::ArrayOf,
                Item::ElementType,
            ],
        ),
        _ => Row::Refuses,
    }
}

// The type of elements.
pub fn element_type(token: &Token) -> Row
    ensures { line_of result ≡ spec.element_type token.now }
{
    match token {
        Token::Name(name) => type_named(Section::Constants, name),
        _ => Row::Refuses,
    }
}

// An axis or group in parentheses, or none.
pub fn object(token: &Token) -> Row
    ensures { line_of result ≡ spec.object token.now }
{
    match token {
        Token::Sign(Sign::Open) => skip(&[Item::ObjectName, Item::Close]),
        _ => Row::Passes(None),
    }
}

// The name of an axis or group.
pub fn object_name(token: &Token) -> Row
    ensures { line_of result ≡ spec.object_name token.now }
{
    match token {
        Token::Name(name) => take(Part::Object(*name), &[]),
        _ => Row::Refuses,
    }
}

// The first value, or none.
pub fn initial(token: &Token) -> Row
    ensures { line_of result ≡ spec.initial token.now }
{
    match token {
        Token::Sign(Sign::Gets) => take(Part::Initial, &[Item::InitialValue]),
        _ => Row::Passes(None),
    }
}

// The first value, or those of an array.
pub fn initial_value(token: &Token) -> Row
    ensures { line_of result ≡ spec.initial_value token.now }
{
    match token {
        Token::Sign(Sign::OpenIndex) => take(Part::List, &[Item::Constant, Item::Values]),
        _ => constant(&[], token),
    }
}

// Further values of an array.
pub fn values(token: &Token) -> Row
    ensures { line_of result ≡ spec.values token.now }
{
    match token {
        Token::Sign(Sign::Comma) => skip(&[Item::Constant, Item::Values]),
        Token::Sign(Sign::CloseIndex) => take(Part::ListEnd, &[]),
        _ => Row::Refuses,
    }
}
