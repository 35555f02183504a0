// Nodes of a tree.

use crate::elementary::Elementary;
use crate::function::Function;
use crate::motion::Motion;
use crate::operator::Operator;
use crate::section::Section;
use crate::standard::Standard;
use iec_tokens::{Name, Number};

/// A node of a tree, and the line where it was read.
#[derive(Clone, Copy)]
pub struct Node {
    pub part: Part,
    pub line: u64,
}

/// What a node says. Where it ends something, that stands in front of it.
#[derive(Clone, Copy)]
pub enum Part {
    // ---- names and constants
    /// A name where it stands; a later node says what it is used for.
    Name(Name),
    /// A word after a point, or one of an enumeration that is declared.
    Word(Name),
    Number { negative: bool, number: Number },
    Truth(bool),
    /// The name in front is a constant.
    Constant,
    /// Name and word in front are a word of an enumeration.
    ConstantWord,
    /// The minus of what is in front.
    Negative,

    // ---- files and programs
    /// `TYPE`; its name and its words follow.
    Enumeration,
    /// The word in front has the number in front.
    Numbered,
    EnumerationEnd,
    Section(Section),
    SectionEnd,
    /// `PROGRAM`; its name follows.
    Program,
    /// The sections have ended, and the statements begin.
    Statements,
    ProgramEnd,
    /// The text has ended.
    End,

    // ---- declarations
    /// A name that is declared.
    Declares(Name),
    /// `ARRAY`; its bounds follow, then the type of its elements.
    Array,
    Elementary(Elementary),
    Standard(Standard),
    Motion(Motion),
    /// A type that the text declares.
    Named(Name),
    /// The axis or group of a motion block.
    Object(Name),
    /// `:=`; the first value follows.
    Initial,
    /// `[`; the values of an array follow.
    List,
    ListEnd,
    DeclarationEnd,

    // ---- statements
    /// The name in front is a place.
    PlaceVariable,
    /// The name in front is an array, and the index of an element that is a place follows.
    PlaceIndex,
    /// The index is in front.
    PlaceElement,
    /// Name and word in front are an input of a block as a place.
    PlaceMember,
    /// The place in front gets the value in front.
    Assign,
    /// The name in front is a block that is called.
    Call,
    /// An input or output of the block.
    Argument(Name),
    /// It is an input with the value in front.
    Input,
    /// It is an output, assigned to the place in front.
    Output,
    CallEnd,
    If,
    /// The condition is in front.
    Then,
    Elsif,
    Else,
    IfEnd,
    Case,
    /// The selector is in front.
    Of,
    /// The constant in front is a label.
    Label,
    /// The two constants in front are a label.
    Range,
    /// The statements of a branch begin.
    Branch,
    CaseEnd,
    For,
    /// The bounds are in front, and the step where there is one.
    Do { by: bool },
    ForEnd,
    Exit,
    Return,
    /// A statement that does nothing.
    Empty,

    // ---- expressions
    /// The name in front is a variable.
    Variable,
    /// The name in front is an array, and the index of an element follows.
    Index,
    /// The index is in front.
    Element,
    /// Name and word in front are an output or input of a block, or a word of an enumeration.
    Member,
    /// `(` of a function; its arguments follow.
    Arguments(Function),
    /// An argument is in front, and one more follows.
    Comma,
    /// The arguments are in front.
    Function(Function),
    Parenthesis,
    ParenthesisEnd,
    Not,
    /// The two operands are in front.
    Join(Operator),
}
