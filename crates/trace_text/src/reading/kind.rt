// The kinds of records, and the stages of a trace.

ghost use Rattle.std.specs.Prelude.{◌≡◌};
ghost use Rattle.trace_text.specs.reading.Kinds as spec;

/// The stages of a trace, from record to record.
#[derive(Clone, Copy, Debug, PartialEq, Eq)]
pub enum Stage {
    /// Before the header.
    Header,
    /// Before the record that gives the version and the room.
    Room,
    /// In the items of the machine.
    Machine,
    /// Between entries.
    Entries,
    /// In the rows of a cycle.
    Rows,
    /// In what the drives took.
    Drives,
}

/// The kinds of records after the second.
#[derive(Clone, Copy, Debug)]
pub enum Kind {
    Axis,
    Group,
    Table,
    Task,
    Block,
    Call,
    Cycle,
    Row,
    Grow,
    End,
    Drive,
}

/// The kinds; those that come most often stand first.
const KINDS: [Kind; 11] = [
    Kind::Row,
    Kind::Cycle,
    Kind::Call,
    Kind::Grow,
    Kind::End,
    Kind::Drive,
    Kind::Axis,
    Kind::Group,
    Kind::Table,
    Kind::Task,
    Kind::Block,
];

// The first field of a record of the kind.
#[tactic(auto, unfolding(crate::specs::reading::Kinds::kind_text))]
fn kind_text(kind: Kind) -> &'static str
    ensures { result.now ≡ spec.kind_text kind }
{
    match kind {
        Kind::Axis => "axis",
        Kind::Group => "group",
        Kind::Table => "table",
        Kind::Task => "task",
        Kind::Block => "block",
        Kind::Call => "call",
        Kind::Cycle => "cycle",
        Kind::Row => "row",
        Kind::Grow => "grow",
        Kind::End => "end",
        Kind::Drive => "drive",
    }
}

/// The kind of a record by its first field. The most frequent is recognised by its bytes.
#[tactic(auto, unfolding(crate::specs::reading::Kinds::kind_of, crate::specs::reading::Kinds::kind_text))]
pub fn kind_of(first: &[u8]) -> Option<Kind>
    ensures { result ≡ spec.kind_of first.now }
{
    match first {
        [b'r', b'o', b'w'] => Some(Kind::Row),
        _ => kind_among(first),
    }
}

// The kind of a record by its first field, looked for among all.
fn kind_among(first: &[u8]) -> Option<Kind>
    ensures { result ≡ spec.kind_of first.now }
{
    KINDS
        .iter()
        .find(|kind| kind_text(**kind).as_bytes() == first)
        .copied()
}

/// Whether two stages are the same.
pub fn is_stage(stage: Stage, other: Stage) -> bool
    ensures { result ≡ spec.is_stage stage other }
{
    stage == other
}

/// Where the items of a kind stand among those of others.
pub fn rank_of(kind: Kind) -> u8
    ensures { result ≡ spec.rank_of kind }
{
    match kind {
        Kind::Axis => 0,
        Kind::Group => 1,
        Kind::Table => 2,
        Kind::Task => 3,
        Kind::Block => 4,
        _ => 5,
    }
}
