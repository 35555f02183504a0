// What is known where a node stands.

use iec_tree::{Elementary, Motion, Name, Section, Standard};

/// A name where it was read.
#[derive(Clone, Copy)]
pub struct Used {
    pub name: Name,
    pub line: u64,
}

/// What the next name is.
#[derive(Clone, Copy, Debug, PartialEq, Eq)]
pub enum Expected {
    /// What an enumeration is called.
    Enumeration,
    /// A word of an enumeration, or `)`.
    Word,
    /// What a program is called.
    Program,
    /// Something that has a name already.
    Known,
}

/// The declaration or statement that is under way: its first line, whether there is one, and
/// whether a name in it was wrong.
#[derive(Clone, Copy)]
pub struct Clause {
    pub line: u64,
    pub begun: bool,
    pub lost: bool,
}

/// The bounds of the index of an array.
#[derive(Clone, Copy)]
pub struct Range {
    pub first: i64,
    pub last: i64,
}

/// What is declared, or of an array what its elements are.
#[derive(Clone, Copy)]
pub enum Shape {
    Variable(Elementary),
    Standard(Standard),
    Motion(Motion),
}

/// The declaration that is under way.
#[derive(Clone, Copy)]
pub struct Declaration {
    pub section: Section,
    pub shape: Shape,
    pub array: Option<Range>,
    /// An axis or group stands in it.
    pub has_object: bool,
    /// The number of that, where it is there and fits.
    pub object: Option<u16>,
    pub has_initial: bool,
    pub has_list: bool,
    /// How many values stand in the list so far.
    pub values: u64,
}

/// The enumeration that is under way: the word whose number may follow, that number where it does,
/// and the number of the next word.
#[derive(Clone, Copy)]
pub struct Enumeration {
    pub word: Option<Used>,
    pub number: Option<i64>,
    pub next: i64,
}

/// How many there are so far: enumerations, programs, variables and elements.
#[derive(Clone, Copy)]
pub struct Counts {
    pub enumerations: u32,
    pub programs: u16,
    pub cells: u32,
}

/// A motion block that was declared: its name and the line of that, its program, its kind, whether
/// an axis or group stood in the declaration, and the number of that.
#[derive(Clone, Copy)]
pub struct MotionBlock {
    pub used: Used,
    pub program: u16,
    pub motion: Motion,
    pub has_object: bool,
    pub object: Option<u16>,
}
