// The inputs of a call, as its keys give them.

ghost use Rattle.std.specs.Prelude.{◌≡◌, ◌≤◌, unsigned_abs};
ghost use Rattle.st_exec.specs.Scan as spec;
ghost use Rattle.machine_words.specs.Units.{IsCycle};

use crate::listed::set_at;
use fixed_units::{per_cycle, per_cycle2};
use plc_types::{INPUTS_OFF, Inputs};
use st_tree::Key;

/// The internal units of a thousandth of a user unit.
const THOUSANDTH: i64 = 1_000_000;

// Thousandths of a user unit in internal units.
fn thousandths(value: i32) -> i64
    ensures value { result ≡ spec.thousandths value }
    ensures small { unsigned_abs result ≤ 1000000000000000000 }
{
    value as i64 * THOUSANDTH
}

// The table that a number names; one outside 0 to 65535 names none.
#[tactic(auto, unfolding(crate::specs::Scan::table_of))]
fn table_of(value: i32) -> u16
    ensures { result ≡ spec.table_of value }
{
    if 0 <= value && value <= 65_535 {
        value as u16
    } else {
        0
    }
}

/// Inputs of which Execute alone is given.
pub fn begun(execute: bool) -> Inputs
    ensures { result ≡ spec.with_execute execute }
{
    Inputs {
        execute,
        ..INPUTS_OFF
    }
}

/// Gives an input the number of its key, where a cycle has this many microseconds.
pub fn give_number(inputs: &mut Inputs, cycle_us: u32, key: Key, value: i32)
    requires { IsCycle cycle_us }
    ensures { inputs.new ≡ spec.with_number cycle_us key value inputs.old }
{
    give_dint(inputs, cycle_us, key, value);
}

// Gives an input the DINT of its key.
fn give_dint(inputs: &mut Inputs, cycle_us: u32, key: Key, value: i32)
    requires { IsCycle cycle_us }
    ensures { inputs.new ≡ spec.with_dint cycle_us key value inputs.old }
{
    match key {
        Key::Position(place) => {
            set_at(&mut inputs.positions, place as usize, thousandths(value));
        }
        Key::Velocity => inputs.velocity = per_cycle(thousandths(value), cycle_us),
        Key::Acceleration => inputs.acceleration = per_cycle2(thousandths(value), cycle_us),
        Key::Deceleration => inputs.deceleration = per_cycle2(thousandths(value), cycle_us),
        Key::Jerk => inputs.jerk = thousandths(value),
        Key::Numerator => inputs.numerator = value as i64,
        Key::Denominator => inputs.denominator = value as i64,
        Key::Table => inputs.table = table_of(value),
    }
}
