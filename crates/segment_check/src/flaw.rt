// Why no machine may begin as a header says.

/// Why no machine of a configuration may begin as the header of a trace segment says: the first of
/// these, in their order, that is there.
#[derive(Clone, Copy, Debug, PartialEq, Eq)]
pub enum Flaw {
    /// The counts of what was before don't fit each other, or the room of the segments.
    Counts,
    /// The machine doesn't satisfy the invariant of the configuration.
    Invariant,
    /// A command, or the hold of stopping, is that of an instance whose block doesn't act there.
    Owners,
    /// An instance has another command than it shows.
    Commands,
    /// A command is of another kind than its instance's block.
    Kinds,
    /// An error, a hold, an active command or a path isn't as the state has it.
    States,
    /// A command of an axis, or the hold of its stopping, isn't such as a call asks for.
    Orders,
    /// No segment was before, and the machine isn't the one at opening.
    Opening,
}
