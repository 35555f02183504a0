// What is known where a token stands.

use plc_types::{BlockKind, Input, Name};

/// The types of values.
#[derive(Clone, Copy, Debug, PartialEq, Eq)]
pub enum ValueType {
    Bool,
    Dint,
}

/// What a name of a task names.
#[derive(Clone, Copy)]
pub enum Sort {
    /// A variable, by its number in its task.
    Variable { number: u32, of: ValueType },
    Block(Callee),
}

/// A block that may be called: its number, its kind, and on how many axes it acts.
#[derive(Clone, Copy)]
pub struct Callee {
    pub number: u16,
    pub kind: BlockKind,
    pub axes: usize,
}

/// A name of the task that is under way.
#[derive(Clone, Copy)]
pub struct Known {
    pub name: Name,
    pub sort: Sort,
}

/// A key that a block takes: its input, and the place of a position, from 0.
#[derive(Clone, Copy)]
pub struct Slot {
    pub input: Input,
    pub place: u8,
}

/// The declaration that is under way: its name and the line of that, and the kind of its block.
#[derive(Clone, Copy)]
pub struct Declaration {
    pub name: Option<Name>,
    pub line: u64,
    pub kind: Option<BlockKind>,
}

/// The statement that is under way: its first line, whether a name in it was wrong, whether a type
/// was, and what its name names.
#[derive(Clone, Copy)]
pub struct Statement {
    pub line: u64,
    pub is_lost: bool,
    pub is_mistyped: bool,
    pub target: Option<Sort>,
}

/// The call that is under way: its block, the line of its last key, the least place of the next key
/// in their order, and the key, where it is one that the block takes.
#[derive(Clone, Copy)]
pub struct Call {
    pub callee: Option<Callee>,
    pub line: u64,
    pub next: u16,
    pub slot: Option<Slot>,
}

/// The name in an expression that was read last, and its line.
#[derive(Clone, Copy)]
pub struct Used {
    pub sort: Option<Sort>,
    pub line: u64,
}
