// The parts of a program.

use crate::{Flag, Key, Operator, Start};
use plc_types::BufferMode;

/// A part of a program. The names of tasks and variables are distinguished from them.
#[derive(Clone, Copy)]
pub enum Part {
    Task,
    /// A variable of the task.
    Declared(Start),
    /// The declarations have ended, with this many blocks.
    Body(u16),
    TaskEnd,
    Number(i32),
    Truth(bool),
    Variable(u32),
    Flag { instance: u16, flag: Flag },
    Negative,
    Not,
    Join(Operator),
    /// The variable has the value in front.
    Set(u32),
    /// The block is called with the value in front for `execute`.
    Execute(u16),
    /// The key has the value in front.
    Given(Key),
    Mode(BufferMode),
    Master(u8),
    CallEnd,
    /// The condition stands in front.
    If,
    /// The selector stands in front.
    Case,
    Branch(i32),
    Else,
    EndIf,
    EndCase,
}
