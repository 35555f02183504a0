// The elementary types: their values, and which widen to which.

ghost use Rattle.std.specs.Prelude.{◌≡◌, ◌↔◌, IsTrue};
ghost use Rattle.std.specs.List.{list_all};
ghost use Rattle.iec_values.specs.Types as spec;
ghost use Rattle.iec_values.specs.Types.{Holds};

use iec_tree::{ELEMENTARY, Elementary};

/// The least value of a type.
pub fn least(of: Elementary) -> i64
    ensures { result ≡ spec.least_of of }
{
    match of {
        Elementary::Bool => 0,
        Elementary::Int => -32_768,
        Elementary::Dint => -2_147_483_648,
        Elementary::Lreal => -9_223_372_036_854_775_807,
        Elementary::Time => -1_000_000_000_000_000,
    }
}

/// The greatest value of a type.
pub fn greatest(of: Elementary) -> i64
    ensures { result ≡ spec.greatest_of of }
{
    match of {
        Elementary::Bool => 1,
        Elementary::Int => 32_767,
        Elementary::Dint => 2_147_483_647,
        Elementary::Lreal => 9_223_372_036_854_775_807,
        Elementary::Time => 1_000_000_000_000_000,
    }
}

/// Whether a number is a value of a type.
pub fn holds(of: Elementary, value: i64) -> bool
    ensures { IsTrue result ↔ Holds of value }
{
    least(of) <= value && value <= greatest(of)
}

/// Whether values of a type may stand where one of another type is asked for.
pub fn widens(from: Elementary, to: Elementary) -> bool
    ensures { result ≡ spec.widens from to }
{
    match from {
        Elementary::Bool => matches!(to, Elementary::Bool),
        Elementary::Int => matches!(to, Elementary::Int | Elementary::Dint | Elementary::Lreal),
        Elementary::Dint => matches!(to, Elementary::Dint | Elementary::Lreal),
        Elementary::Lreal => matches!(to, Elementary::Lreal),
        Elementary::Time => matches!(to, Elementary::Time),
    }
}

/// Whether all of several types widen to one.
pub fn all_widen(types: &[Elementary], to: Elementary) -> bool
    ensures { result ≡ list_all (λ s. spec.widens s to) types.now }
{
    types.iter().all(|from| widens(*from, to))
}

/// The common type of several: the first to which all of them widen.
#[tactic(auto, unfolding(crate::specs::Types::common_of))]
pub fn common_type(types: &[Elementary]) -> Option<Elementary>
    ensures { result ≡ spec.common_of types.now }
{
    ELEMENTARY.iter().find(|to| all_widen(types, **to)).copied()
}

/// The type in which expressions of a type are computed.
pub fn computed_type(of: Elementary) -> Elementary
    ensures { result ≡ spec.computed_of of }
{
    match of {
        Elementary::Int => Elementary::Dint,
        _ => of,
    }
}
