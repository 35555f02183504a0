// Sections of declarations.

/// What a section declares.
#[derive(Clone, Copy, Debug, PartialEq, Eq)]
pub enum Section {
    /// Variables that every program sees.
    Globals,
    /// Constants, of a program or global.
    Constants,
    /// Variables and blocks of a program.
    Locals,
    /// Inputs of the machine.
    Inputs,
}
