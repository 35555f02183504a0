// Truths as numbers: TRUE is 1 and FALSE is 0.

ghost use Rattle.std.specs.Prelude.{◌≡◌};
ghost use Rattle.iec_tree.specs.declared.elementary.Elementary.TheVariants as type;
ghost use Rattle.iec_values.specs.Truths as spec;
ghost use Rattle.iec_values.specs.Types.{Holds};

/// A truth as a number.
#[tactic(auto, unfolding(crate::specs::Truths::truth_of))]
pub fn truth_of(truth: bool) -> i64
    ensures value { result ≡ spec.truth_of truth }
    ensures holds { Holds type.Bool result }
{
    if truth { 1 } else { 0 }
}

/// Whether a number is TRUE.
#[tactic(auto, unfolding(crate::specs::Truths::is_true))]
pub fn is_true(value: i64) -> bool
    ensures { result ≡ spec.is_true value }
{
    value != 0
}
