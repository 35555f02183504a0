// What names name.

use iec_tree::{Elementary, Name, Standard};

/// The elements of an array: their type, the place of the first, and the bounds of the index.
#[derive(Clone, Copy)]
pub struct Elements {
    pub of: Elementary,
    pub place: u32,
    pub first: i64,
    pub last: i64,
    /// They can't be assigned.
    pub constant: bool,
}

/// What a name names.
#[derive(Clone, Copy)]
pub enum Sort {
    // ---- of the machine, by their numbers
    Axis(u16),
    Group(u16),
    /// An input of the machine, which a program may declare.
    MachineInput(u16),

    // ---- of the text
    Program(u16),
    /// An enumeration, by its number.
    Enumeration(u32),
    /// A word of the enumeration with this number, and what it counts.
    Word {
        of: u32,
        value: i64,
    },

    // ---- of the text or of a program
    /// It is declared, and its declaration hasn't ended.
    Coming,
    /// It can't be assigned where it is that of a FOR.
    Variable {
        of: Elementary,
        place: u32,
        looped: bool,
    },
    Constant {
        of: Elementary,
        value: i64,
    },
    Elements(Elements),
    Standard {
        standard: Standard,
        place: u32,
    },

    // ---- of a program
    /// A motion block, by its number.
    Motion(u32),
    /// An input of the machine that the program has declared.
    Input(u16),
}

/// A name, and what it names.
#[derive(Clone, Copy)]
pub struct Known {
    pub name: Name,
    pub sort: Sort,
}
