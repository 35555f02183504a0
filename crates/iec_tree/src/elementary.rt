// Elementary data types.

ghost use Rattle.std.specs.Prelude.{◌≡◌};
ghost use Rattle.iec_tree.specs.Elementary as spec;

/// The elementary data types.
#[derive(Clone, Copy, Debug, PartialEq, Eq)]
pub enum Elementary {
    Bool,
    Int,
    Dint,
    /// `REAL` and `LREAL`.
    Lreal,
    Time,
}

/// The elementary data types.
pub const ELEMENTARY: [Elementary; 5] = [
    Elementary::Bool,
    Elementary::Int,
    Elementary::Dint,
    Elementary::Lreal,
    Elementary::Time,
];

// How a type is written in capitals.
#[tactic(auto, unfolding(crate::specs::Elementary::elementary_text))]
fn elementary_text(elementary: Elementary) -> &'static str
    ensures { result.now ≡ spec.elementary_text elementary }
{
    match elementary {
        Elementary::Bool => "BOOL",
        Elementary::Int => "INT",
        Elementary::Dint => "DINT",
        Elementary::Lreal => "LREAL",
        Elementary::Time => "TIME",
    }
}

// How it is written with `REAL` for `LREAL`.
#[tactic(auto, unfolding(crate::specs::Elementary::real_text))]
fn real_text(elementary: Elementary) -> &'static str
    ensures { result.now ≡ spec.real_text elementary }
{
    match elementary {
        Elementary::Lreal => "REAL",
        _ => elementary_text(elementary),
    }
}

// Whether a type is written so, in any case of letters.
#[tactic(auto, unfolding(crate::specs::Elementary::is_written))]
fn is_written(elementary: Elementary, name: &[u8]) -> bool
    ensures { result ≡ spec.is_written name.now elementary }
{
    elementary_text(elementary)
        .as_bytes()
        .eq_ignore_ascii_case(name)
        || real_text(elementary).as_bytes().eq_ignore_ascii_case(name)
}

/// The type of this name, in any case of letters.
#[tactic(auto, unfolding(crate::specs::Elementary::elementary_named))]
pub fn elementary_named(name: &[u8]) -> Option<Elementary>
    ensures { result ≡ spec.elementary_named name.now }
{
    ELEMENTARY.iter().find(|e| is_written(**e, name)).copied()
}
