// The bounds that are counted while a text is read.

ghost use Rattle.std.specs.Prelude.{◌≡◌};
ghost use Rattle.iec_grammar.specs.Counts as spec;

use iec_tree::Part;

/// What is counted.
#[derive(Clone, Copy)]
pub struct Counts {
    pub programs: u16,
    pub statements: u16,
    /// How many statements, parentheses, indices and functions hold what is read.
    pub nested: u16,
    /// Arguments of a call are read.
    pub in_call: bool,
    /// The line of the last name, with which a statement may begin.
    pub begun: u64,
}

// Whether a statement begins with the name in front, or a place of an output is meant.
fn is_place(part: &Part) -> bool
    ensures { result ≡ spec.is_place part.now }
{
    matches!(
        part,
        Part::PlaceVariable | Part::PlaceIndex | Part::PlaceMember
    )
}

// Whether a statement begins, whose name is in front.
fn is_named(in_call: bool, part: &Part) -> bool
    ensures { result ≡ spec.is_named in_call part.now }
{
    matches!(part, Part::Call) || (is_place(part) && !in_call)
}

// Whether a statement begins.
fn is_statement(in_call: bool, part: &Part) -> bool
    ensures { result ≡ spec.is_statement in_call part.now }
{
    is_named(in_call, part)
        || matches!(
            part,
            Part::If | Part::Case | Part::For | Part::Exit | Part::Return | Part::Empty
        )
}

// Whether a part begins that may hold others.
fn opens(part: &Part) -> bool
    ensures { result ≡ spec.opens part.now }
{
    matches!(
        part,
        Part::If
            | Part::Case
            | Part::For
            | Part::PlaceIndex
            | Part::Index
            | Part::Arguments(_)
            | Part::Parenthesis
    )
}

// Whether it ends.
fn closes(part: &Part) -> bool
    ensures { result ≡ spec.closes part.now }
{
    matches!(
        part,
        Part::IfEnd
            | Part::CaseEnd
            | Part::ForEnd
            | Part::PlaceElement
            | Part::Element
            | Part::Function(_)
            | Part::ParenthesisEnd
    )
}

// A count, one more where it is raised and below its bound.
fn raised(most: u16, raises: bool, count: u16) -> Option<u16>
    ensures { result ≡ spec.raised most raises count }
{
    if !raises {
        return Some(count);
    }
    if count < most { Some(count + 1) } else { None }
}

// The line of a statement that begins with this part in this line.
fn statement_line(counts: &Counts, part: &Part, line: u64) -> u64
    ensures { result ≡ spec.statement_line counts.now part.now line }
{
    if is_named(counts.in_call, part) {
        counts.begun
    } else {
        line
    }
}

// How many hold what is read after this part.
fn nested_after(part: &Part, nested: u16) -> u16
    ensures { result ≡ spec.nested_after part.now nested }
{
    if closes(part) {
        nested.saturating_sub(1)
    } else {
        nested
    }
}

// Whether arguments of a call are read after this part.
fn in_call_after(part: &Part, in_call: bool) -> bool
    ensures { result ≡ spec.in_call_after part.now in_call }
{
    match part {
        Part::Call => true,
        Part::CallEnd => false,
        _ => in_call,
    }
}

// The line of the last name after this part.
fn begun_after(part: &Part, line: u64, begun: u64) -> u64
    ensures { result ≡ spec.begun_after part.now line begun }
{
    match part {
        Part::Name(_) => line,
        _ => begun,
    }
}

/// The counts after a part in this line, or the line of the bound that it breaks.
#[tactic(auto, unfolding(crate::specs::Counts::counted))]
pub fn counted(counts: &Counts, part: &Part, line: u64) -> Result<Counts, u64>
    ensures { result ≡ spec.counted counts.now part.now line }
{
    let is_program = matches!(part, Part::Program);
    let Some(programs) = raised(8, is_program, counts.programs) else {
        return Err(line);
    };
    let is_statement = is_statement(counts.in_call, part);
    let Some(statements) = raised(10_000, is_statement, counts.statements) else {
        return Err(statement_line(counts, part, line));
    };
    let Some(nested) = raised(32, opens(part), counts.nested) else {
        return Err(line);
    };
    Ok(Counts {
        programs,
        statements,
        nested: nested_after(part, nested),
        in_call: in_call_after(part, counts.in_call),
        begun: begun_after(part, line, counts.begun),
    })
}
