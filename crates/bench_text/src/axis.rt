// The axes of a bench.

ghost use Rattle.std.specs.Prelude.{◌≡◌};
ghost use Rattle.line_text.specs.Reading.{Gives, Takes};
ghost use Rattle.line_text.specs.Texts.{texts};
ghost use Rattle.bench_text.specs.Items as spec;

use line_text::{LineFault, says};
use machine_words::{NO_VALUE, WRONG_COUNT, free_name, number, refusal_of};
use motion_history::{Builder, TraceVersion};
use plc_types::Limits;

/// Where an axis stands, in internal units, and whether it is ready.
#[derive(Clone, Copy)]
pub struct Placed {
    pub inc: i64,
    pub start: i64,
    pub ready: bool,
}

/// Adds the axis of a line.
#[tactic(auto, unfolding(crate::specs::Items::axis_meaning))]
pub fn add_axis(
    machine: &mut Builder,
    version: TraceVersion,
    words: &[&[u8]],
) -> Result<(), LineFault>
    ensures { Takes (spec.axis_meaning version machine.old (texts words.now)) machine.new result }
{
    match version {
        TraceVersion::One => {
            let [name, lo, hi, vmax, amax, behind @ ..] = words else {
                return Err(LineFault::Rule(WRONG_COUNT));
            };
            place_axis(machine, name, &[lo, hi, vmax, amax, amax], behind)
        }
        TraceVersion::Two | TraceVersion::Three => {
            let [name, lo, hi, vmax, amax, dmax, behind @ ..] = words else {
                return Err(LineFault::Rule(WRONG_COUNT));
            };
            place_axis(machine, name, &[lo, hi, vmax, amax, dmax], behind)
        }
    }
}

// Adds an axis of this name.
#[tactic(auto, unfolding(crate::specs::Items::axis_added))]
fn place_axis(
    machine: &mut Builder,
    name: &[u8],
    limits: &[&[u8]],
    behind: &[&[u8]],
) -> Result<(), LineFault>
    ensures { Takes (spec.axis_added machine.old name.now (texts limits.now) (texts behind.now))
        machine.new result }
{
    free_name(machine, name)?;
    let limits = limits_of(limits)?;
    let placed = placed_of(behind)?;
    match machine.axis(name, &limits, placed.inc, placed.start, placed.ready) {
        Ok(_) => Ok(()),
        Err(fault) => Err(refusal_of(fault)),
    }
}

// The limits of an axis.
#[tactic(auto, unfolding(crate::specs::Items::limits_of))]
fn limits_of(words: &[&[u8]]) -> Result<Limits, LineFault>
    ensures { Gives (λ l. l) (spec.limits_of (texts words.now)) result }
{
    let [lo, hi, vmax, amax, dmax] = words else {
        return Err(LineFault::Rule(WRONG_COUNT));
    };
    let lo = number(lo)?;
    let hi = number(hi)?;
    let vmax = number(vmax)?;
    let amax = number(amax)?;
    let dmax = number(dmax)?;
    Ok(Limits {
        lo,
        hi,
        vmax,
        amax,
        dmax,
    })
}

// Where an axis stands.
#[tactic(auto, unfolding(crate::specs::Items::placed_of))]
fn placed_of(words: &[&[u8]]) -> Result<Placed, LineFault>
    ensures { Gives (λ p. p) (spec.placed_of (texts words.now)) result }
{
    let [inc, start, behind @ ..] = words else {
        return Err(LineFault::Rule(WRONG_COUNT));
    };
    let inc = number(inc)?;
    let start = number(start)?;
    let ready = ready_of(behind)?;
    Ok(Placed { inc, start, ready })
}

// Whether an axis is ready.
#[tactic(auto, unfolding(crate::specs::Items::ready_of))]
fn ready_of(words: &[&[u8]]) -> Result<bool, LineFault>
    ensures { Gives (λ b. b) (spec.ready_of (texts words.now)) result }
{
    match words {
        [] => Ok(false),
        [word] => {
            if says(word, b"ready") {
                Ok(true)
            } else {
                Err(LineFault::Rule(NO_VALUE))
            }
        }
        _ => Err(LineFault::Rule(WRONG_COUNT)),
    }
}
