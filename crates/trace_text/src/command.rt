// The command that made a trace.

/// Who made a trace.
#[derive(Clone, Copy, Debug, PartialEq, Eq)]
pub enum Command {
    Bench,
    Run,
}
