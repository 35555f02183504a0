// Rules that words break.

ghost use Rattle.std.specs.Prelude.{◌≡◌, ◌≤◌, IfOk};
ghost use Rattle.std.specs.Option.{ok_or};
ghost use Rattle.line_text.specs.Reading.{Gives};
ghost use Rattle.line_text.specs.Rules as spec;

use crate::reader::LineFault;

/// Breaks a rule unless this holds.
pub fn broken_unless(holds: bool, rule: u8) -> Result<(), LineFault>
    ensures { Gives (λ u. u) (spec.broken_unless holds rule) result }
{
    if holds {
        Ok(())
    } else {
        Err(LineFault::Rule(rule))
    }
}

/// What was found; a rule is broken where there is nothing.
pub fn required<T: Copy>(found: Option<T>, rule: u8) -> Result<T, LineFault>
    ensures { Gives (λ x. x) (ok_or found rule) result }
{
    match found {
        Some(value) => Ok(value),
        None => Err(LineFault::Rule(rule)),
    }
}

/// The number where it lies between two, both included; else a rule is broken.
#[tactic(auto, unfolding(crate::specs::Rules::in_range))]
pub fn in_range(least: u32, most: u32, rule: u8, number: i64) -> Result<u32, LineFault>
    ensures value { Gives (λ n. n) (spec.in_range least most rule number) result }
    ensures least { IfOk result (λ n. least ≤ n) }
    ensures most { IfOk result (λ n. n ≤ most) }
{
    if i64::from(least) <= number && number <= i64::from(most) {
        Ok(number as u32)
    } else {
        Err(LineFault::Rule(rule))
    }
}
