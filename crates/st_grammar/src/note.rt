// What tokens mean where they stand, and the rows of the table.

use crate::item::Item;
use plc_types::{BlockKind, Name};
use st_tree::{Flag, Operator};

/// What a token means, or the end of a part in front of it.
#[derive(Clone, Copy)]
pub enum Note {
    Nothing,
    /// A task begins.
    Program,
    TaskName(Name),
    /// A declaration begins with this name.
    Declares(Name),
    /// It is a BOOL with this value.
    Bool(bool),
    /// It is a DINT with a number, of this size and with a minus or none.
    Dint { negative: bool, size: u32 },
    /// It is a block of this kind.
    Block(BlockKind),
    /// The block acts on this.
    Object(Name),
    /// The statements of the task begin.
    Body,
    EndProgram,
    /// The text ends.
    End,
    /// A statement begins with this name.
    Statement(Name),
    /// It gives a variable a value.
    Sets,
    /// It calls a block.
    Calls,
    /// The expression for `execute` has ended.
    Executed,
    /// A key of a call.
    Key(Name),
    /// The word that is the value of the key `mode`.
    Mode(Name),
    /// The word that is the value of the key `master`.
    Master(Name),
    /// The expression that is the value of another key has ended.
    Given,
    SetEnd,
    CallEnd,
    If,
    Then,
    Case,
    Of,
    Branch { negative: bool, size: u32 },
    Else,
    /// There is no `ELSE`, and the statement closes.
    NoElse { case: bool },
    /// The statement closes after its `ELSE`.
    Closes { case: bool },
    Number(u32),
    Truth(bool),
    /// A name in an expression.
    Name(Name),
    /// The name is a variable's.
    Variable,
    /// The name is a block's, and this is its flag.
    Flag(Flag),
    Opens,
    ClosesParenthesis,
    Minus,
    Not,
    Join(Operator),
}

/// What a token does where an item is expected. Contracts see the items as a list.
#[derive(Clone, Copy)]
pub enum Row {
    /// It is taken, and these items are expected in the item's place.
    Takes(Note, &'static [Item]),
    /// It is taken, and begins an operand: the items of the first list are expected, and then those
    /// of the second.
    Begins(Note, &'static [Item], &'static [Item]),
    /// The item ends in front of it.
    Passes(Note),
    /// It doesn't fit.
    Refuses,
}
