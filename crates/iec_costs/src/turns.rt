// The turns of a FOR.

ghost use Rattle.std.specs.Prelude.{◌≡◌, ◌≢◌, pos, unsigned_abs, ◌-ℤ◌};
ghost use Rattle.iec_costs.specs.Turns as spec;

/// The bounds of a FOR and its step.
#[derive(Clone, Copy, Debug, PartialEq, Eq)]
pub struct Bounds {
    pub first: i64,
    pub last: i64,
    pub by: i64,
}

// How far two numbers are apart.
fn distance(from: i64, to: i64) -> u128
    ensures { result ≡ unsigned_abs (to -ℤ from) }
{
    (i128::from(to) - i128::from(from)).unsigned_abs()
}

// The turns from a value to one that isn't before it.
fn turns_between(bounds: &Bounds) -> u128
    requires { bounds.now.by ≢ pos 0 }
    ensures { result ≡ spec.turns_between bounds.now.first bounds.now.last bounds.now.by }
{
    distance(bounds.first, bounds.last) / u128::from(bounds.by.unsigned_abs()) + 1
}

/// How often the body of a FOR runs.
#[tactic(auto, unfolding(crate::specs::Turns::turns_of))]
pub fn turns_of(bounds: &Bounds) -> u128
    ensures { result ≡ spec.turns_of bounds.now }
{
    if 0 < bounds.by && bounds.first <= bounds.last {
        turns_between(bounds)
    } else if bounds.by < 0 && bounds.last <= bounds.first {
        turns_between(bounds)
    } else {
        0
    }
}
