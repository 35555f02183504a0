// Tokens. IEC 61131-3.

use crate::name::Name;

/// A token of a text.
#[derive(Clone, Copy)]
pub enum Token {
    /// A word that is not reserved.
    Name(Name),
    Word(Word),
    Number(Number),
    Sign(Sign),
    /// The end of the text.
    End,
    /// What is no token: a byte that begins none, a word that is too long, a number that is not
    /// well formed, or a comment without an end.
    Wrong,
    /// A token more than a text may have.
    TooMany,
}

/// A number or a time, without a sign; none where it is beyond its range.
#[derive(Clone, Copy)]
pub enum Number {
    /// A whole number up to 2,147,483,648, of which the greatest only stands with a sign; in
    /// hexadecimal up to 2,147,483,647.
    Whole(Option<u32>),
    /// A decimal number up to 9,000,000,000, in billionths.
    Decimal(Option<u64>),
    /// A time up to 10^15 microseconds, in microseconds.
    Time(Option<u64>),
}

/// A token and the line of its first byte, counted from 1; of the end, the text's last line.
#[derive(Clone, Copy)]
pub struct Placed {
    pub token: Token,
    pub line: u64,
}

/// The words that are reserved.
#[derive(Clone, Copy, Debug, PartialEq, Eq)]
pub enum Word {
    Type,
    EndType,
    VarGlobal,
    Constant,
    EndVar,
    Program,
    EndProgram,
    Var,
    VarInput,
    Array,
    Of,
    True,
    False,
    If,
    Then,
    Elsif,
    Else,
    EndIf,
    Case,
    EndCase,
    For,
    To,
    By,
    Do,
    EndFor,
    Exit,
    Return,
    Or,
    Xor,
    And,
    Mod,
    Not,
}

/// The signs.
#[derive(Clone, Copy, Debug, PartialEq, Eq)]
pub enum Sign {
    /// `:=`
    Gets,
    /// `=>`
    Into,
    /// `..`
    UpTo,
    /// `<>`
    Different,
    AtMost,
    AtLeast,
    Colon,
    Semicolon,
    Comma,
    Open,
    Close,
    /// `[`
    OpenIndex,
    /// `]`
    CloseIndex,
    Dot,
    Plus,
    Minus,
    Times,
    Over,
    Equal,
    Below,
    Above,
    /// `&`
    And,
}
