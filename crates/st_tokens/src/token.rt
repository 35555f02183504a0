// Tokens. IEC 61131-3, in this project's profile.

use plc_types::{BlockKind, Name};

/// A token of a text.
#[derive(Clone, Copy)]
pub enum Token {
    /// A word that is not reserved: a letter and up to 15 letters, digits or `_`.
    Name(Name),
    /// The name of a kind of block, where it is longer than other names may be.
    Kind(BlockKind),
    /// A number up to 2,147,483,647, or 2,147,483,648 for each that is above.
    Number(u32),
    Word(Word),
    Sign(Sign),
    /// The end of the text.
    End,
    /// A byte that begins no token, a word that is too long, or a comment without an end.
    Wrong,
}

/// The words that are reserved, in capitals.
#[derive(Clone, Copy, Debug, PartialEq, Eq)]
pub enum Word {
    Program,
    Var,
    EndVar,
    EndProgram,
    Bool,
    Dint,
    True,
    False,
    If,
    Then,
    Else,
    EndIf,
    Case,
    Of,
    EndCase,
    Or,
    And,
    Not,
}

/// The signs.
#[derive(Clone, Copy, Debug, PartialEq, Eq)]
pub enum Sign {
    /// `:=`
    Gets,
    Colon,
    Semicolon,
    Comma,
    Open,
    Close,
    Dot,
    Plus,
    Minus,
    Times,
    Equal,
    /// `<>`
    Different,
    Below,
    AtMost,
    Above,
    AtLeast,
}
