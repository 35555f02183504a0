// The instructions of a task's code.

use plc_types::BufferMode;
use st_tree::{Flag, Key, Operator};

/// What an instruction does with the stack, the inputs that are being made and the variables. A
/// truth is 1 or 0.
#[derive(Clone, Copy, Debug, PartialEq, Eq)]
pub enum Act {
    /// Puts a number on the stack.
    Push(i32),
    /// Puts a variable on the stack, by its number.
    Load(u32),
    /// Puts a flag of a block's last reply on the stack.
    Show { instance: u16, flag: Flag },
    /// Gives the inputs a mode.
    Choose(BufferMode),
    /// Gives the inputs a master, by the number of its axis.
    Follow(u8),
    /// Passes this many instructions.
    Pass(usize),
    /// Takes the value on top of the stack, and uses it.
    Take(Use),
}

/// What is done with a value that was taken from the top of the stack.
#[derive(Clone, Copy, Debug, PartialEq, Eq)]
pub enum Use {
    /// Puts its negative on the stack.
    Negate,
    /// Puts the contrary of the truth on the stack.
    Invert,
    /// Takes the value under it too, and puts on the stack what joins the two.
    Join(Operator),
    /// Gives it to a variable.
    Store(u32),
    /// Begins the inputs of a call with this Execute.
    Begin,
    /// Gives it to an input.
    Give(Key),
    /// Passes this many instructions where the truth doesn't hold.
    Unless(usize),
    /// Puts it back where it isn't this value, and then passes this many instructions.
    Match { value: i32, passed: usize },
    /// Nothing.
    Forget,
}

/// An instruction of a task's code. All jumps go forward.
#[derive(Clone, Copy, Debug, PartialEq, Eq)]
pub enum Instruction {
    Do(Act),
    /// Calls a block, by its number, with the inputs that were made.
    Ask(u16),
}
