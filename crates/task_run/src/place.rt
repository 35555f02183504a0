// A place in the lines of a task: a line, and in a repeat how often its lines were run.

ghost use Rattle.std.specs.Prelude.{◌≡◌, ◌<◌, ◌+◌, ◌^◌, ◌∷◌, ◌++◌, [], ℕ, List, IfNone, IfSome, None, Some, length, slice_get, false, true};
ghost use Rattle.plc_program.specs.Programs.{IsTask};
ghost use Rattle.task_run.specs.Runs.{is_settled};
ghost use Rattle.task_run.specs.Standing.{IsInside, IsOutside, IsPlace, Moves, Stands};

use plc_program::Instruction;

/// A repeat that a run is in.
#[derive(Clone, Copy)]
pub struct Repetition {
    /// The line of the repeat.
    pub start: u32,
    /// How often its lines were run before.
    pub made: u32,
}

/// A place in the lines of a task.
#[derive(Clone, Copy)]
pub struct ProgramPosition {
    pub line: u32,
    /// The repeat in which it stands.
    pub pass: Option<Repetition>,
}

/// The place from there on at which a line makes calls, or after the last line: it stands at the
/// same point of the lines written out.
pub fn settled(lines: &[Instruction], place: ProgramPosition) -> ProgramPosition
    requires task { IsTask lines.now }
    requires place { IsPlace lines.now place }
    ensures moves { Moves lines.now place result }
    ensures settled { is_settled lines.now result.line ≡ true }
{
    let mut place = place;
    while let Some(line) = line_at(lines, place.line) {
        match line {
            Instruction::Repeat { .. } => place = entered(place.line),
            Instruction::Again => match again(lines, place) {
                Some(first) => return first,
                None => place = behind(place.line),
            },
            _ => return place,
        }
    }
    place
}

/// The line of this number, if there is one.
pub fn line_at(lines: &[Instruction], line: u32) -> Option<Instruction>
    ensures { result ≡ slice_get lines.now line }
{
    lines.get(line as usize).copied()
}

// The first line of the repeat in this line.
fn entered(line: u32) -> ProgramPosition
    requires { line + 1 < 2 ^ 32 }
    ensures { result ≡ record {
      line = line + 1;
      pass = Some (record { start = line; made = 0 });
    } }
{
    ProgramPosition {
        line: line + 1,
        pass: Some(Repetition {
            start: line,
            made: 0,
        }),
    }
}

// The line after the `again` in this line.
fn behind(line: u32) -> ProgramPosition
    requires { line + 1 < 2 ^ 32 }
    ensures { result ≡ record { line = line + 1; pass = None } }
{
    ProgramPosition {
        line: line + 1,
        pass: None,
    }
}

// Whether the lines of a repeat are run again, at its `again`.
fn is_run_again(lines: &[Instruction], line: u32, pass: Repetition) -> bool
    requires { slice_get lines.now line ≡ Some Instruction.Again }
    ensures again { result ≡ true → (passed to_come : List Instruction) →
        IsInside lines.now line pass passed to_come →
        IsInside lines.now (pass.start + 1) (record { start = pass.start; made = pass.made + 1 }) passed to_come }
    ensures left { result ≡ false → (passed to_come : List Instruction) →
        IsInside lines.now line pass passed to_come →
        IsOutside lines.now (line + 1) passed to_come }
    ensures settled { result ≡ true → (passed to_come : List Instruction) →
        IsInside lines.now line pass passed to_come → is_settled lines.now (pass.start + 1) ≡ true }
    ensures fits { result ≡ true → pass.made + 1 < 2 ^ 32 }
{
    let is_empty = u64::from(line) == u64::from(pass.start) + 1;
    let count = count_at(lines, pass.start);
    !is_empty && u64::from(pass.made) + 1 < u64::from(count)
}

// The first line of a repeat whose lines are run again, where they are, at its `again`.
fn again(lines: &[Instruction], place: ProgramPosition) -> Option<ProgramPosition>
    requires task { IsTask lines.now }
    requires place { IsPlace lines.now place }
    requires line { slice_get lines.now place.line ≡ Some Instruction.Again }
    ensures some { IfSome result (λ first. Moves lines.now place first) }
    ensures settled { IfSome result (λ first. is_settled lines.now first.line ≡ true) }
    ensures none { IfNone result
        (Moves lines.now place (record { line = place.line + 1; pass = None })) }
{
    let Some(pass) = place.pass else {
        return None;
    };
    if !is_run_again(lines, place.line, pass) {
        return None;
    }
    Some(ProgramPosition {
        line: pass.start + 1,
        pass: Some(Repetition {
            start: pass.start,
            made: pass.made + 1,
        }),
    })
}

// How often the lines after a repeat are run.
fn count_at(lines: &[Instruction], line: u32) -> u32
    ensures { (count : ℕ) → slice_get lines.now line ≡ Some (Instruction.Repeat count) →
        result ≡ count }
{
    match line_at(lines, line) {
        Some(Instruction::Repeat { count }) => count,
        _ => 0,
    }
}

/// The place after a line that makes calls.
pub fn moved(lines: &[Instruction], place: ProgramPosition) -> ProgramPosition
    requires task { IsTask lines.now }
    requires place { (passed : List Instruction) × (line : Instruction) × (to_come : List Instruction) ×
        Stands lines.now place passed (line ∷ to_come) }
    requires within { place.line < length lines.now }
    requires settled { is_settled lines.now place.line ≡ true }
    ensures moves { (passed to_come : List Instruction) → (line : Instruction) →
        Stands lines.now place passed (line ∷ to_come) →
        Stands lines.now result (passed ++ line ∷ []) to_come }
    ensures settled { is_settled lines.now result.line ≡ true }
{
    let next = ProgramPosition {
        line: place.line + 1,
        pass: place.pass,
    };
    settled(lines, next)
}
