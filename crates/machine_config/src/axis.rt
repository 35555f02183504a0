// The axes of a configuration.

ghost use Rattle.std.specs.Prelude.{◌≡◌, ◌≤◌, IfOk, OnOk};
ghost use Rattle.line_text.specs.Reading.{Gives, Takes};
ghost use Rattle.toml.specs.View.{table_view};
ghost use Rattle.machine_config.specs.Axes as spec;
ghost use Rattle.machine_config.specs.Machines.{IsUnderWay};

use crate::case::is_apart;
use crate::drive::drive_of;
use crate::key::{AXIS_KEYS, Key, has_keys};
use crate::machine::Machine;
use crate::quantity::{quantity_at, quantity_or};
use crate::rule::{WRONG_KEY, WRONG_NAME, refusal_of};
use crate::value::{flag_at, text_at};
use fixed_units::{per_cycle, per_cycle2};
use line_text::{LineFault, broken_unless};
use motion_history::{Builder, DriveDef, DriveDefs, Limits};
use std::alloc::Global;
use toml::Table;

/// Where an axis stands, in internal units.
#[derive(Clone, Copy)]
pub struct Placed {
    pub inc: i64,
    pub start: i64,
}

/// Adds the axis of a table, and its drive.
#[tactic(auto, unfolding(crate::specs::Axes::axis_meaning))]
pub fn add_axis(alloc: Global, machine: &mut Machine, table: &Table) -> Result<(), LineFault>
    requires { IsUnderWay machine.old }
    ensures takes { Takes (spec.axis_meaning machine.old (table_view table.now))
        machine.new result }
    ensures kept { OnOk result (IsUnderWay machine.new) }
{
    broken_unless(has_keys(&AXIS_KEYS, table), WRONG_KEY)?;
    let limits = limits_of(machine.cycle_us, table)?;
    let placed = placed_of(table)?;
    let name = text_at(table, Key::Name).as_bytes();
    broken_unless(is_apart(machine, name), WRONG_NAME)?;
    let ready = flag_at(table, Key::Ready);
    match machine
        .config
        .axis(name, &limits, placed.inc, placed.start, ready)
    {
        Ok(_) => {}
        Err(fault) => return Err(refusal_of(fault)),
    }
    let drive = drive_of(alloc, table)?;
    match machine.drives.push(drive) {
        Ok(()) => Ok(()),
        Err(_) => Err(LineFault::OutOfMemory),
    }
}

// The limits of an axis in a cycle of this many microseconds.
#[tactic(auto, unfolding(crate::specs::Axes::limits_of))]
fn limits_of(cycle_us: u32, table: &Table) -> Result<Limits, LineFault>
    requires shortest { 100 ≤ cycle_us }
    requires longest { cycle_us ≤ 100000 }
    ensures { Gives (λ l. l) (spec.limits_of cycle_us (table_view table.now)) result }
{
    let lo = quantity_at(table, Key::Lo)?;
    let hi = quantity_at(table, Key::Hi)?;
    let vmax = quantity_at(table, Key::Vmax)?;
    let amax = quantity_at(table, Key::Amax)?;
    let dmax = quantity_or(amax, table, Key::Dmax)?;
    Ok(Limits {
        lo,
        hi,
        vmax: per_cycle(vmax, cycle_us),
        amax: per_cycle2(amax, cycle_us),
        dmax: per_cycle2(dmax, cycle_us),
    })
}

// Where an axis stands.
#[tactic(auto, unfolding(crate::specs::Axes::placed_of))]
fn placed_of(table: &Table) -> Result<Placed, LineFault>
    ensures { Gives (λ p. p) (spec.placed_of (table_view table.now)) result }
{
    let inc = quantity_at(table, Key::Increment)?;
    let start = quantity_at(table, Key::Start)?;
    Ok(Placed { inc, start })
}
