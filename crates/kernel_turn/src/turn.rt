// What a turn answers.

/// What a turn answers: its entry was made, or the numbers that it found.
#[derive(Clone, Copy, Debug, PartialEq, Eq)]
pub enum Turn<T> {
    /// The entry was made in the place of its ticket, counted from 0; this many cycles were made
    /// with it.
    Made { ticket: u64, cycles: u32, answer: T },
    /// No entry was made, since there is no room for one or no cycle is left.
    Full { entries: u64, cycles: u32 },
    /// No entry was made: a call came before its cycle, or a cycle while tasks are quiet.
    Early { quiet: u8, cycles: u32 },
}
