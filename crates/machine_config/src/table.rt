// The cam tables of a configuration.

ghost use Rattle.std.specs.Prelude.{OnOk};
ghost use Rattle.line_text.specs.Reading.{Takes};
ghost use Rattle.toml.specs.View.{table_view};
ghost use Rattle.machine_config.specs.Machines.{IsUnderWay};
ghost use Rattle.machine_config.specs.Tables as spec;

use crate::key::{Key, TABLE_KEYS, has_keys};
use crate::machine::Machine;
use crate::quantity::points_of;
use crate::rule::{TABLE_RULES, WRONG_KEY};
use crate::value::texts_at;
use line_text::{LineFault, broken_unless};
use std::alloc::Global;
use toml::Table;

/// Adds the cam table of a table.
#[tactic(auto, unfolding(crate::specs::Tables::table_meaning))]
pub fn add_table(alloc: Global, machine: &mut Machine, table: &Table) -> Result<(), LineFault>
    requires { IsUnderWay machine.old }
    ensures takes { Takes (spec.table_meaning machine.old (table_view table.now))
        machine.new result }
    ensures kept { OnOk result (IsUnderWay machine.new) }
{
    broken_unless(has_keys(&TABLE_KEYS, table), WRONG_KEY)?;
    let Ok(words) = texts_at(alloc, table, Key::Points) else {
        return Err(LineFault::OutOfMemory);
    };
    let points = points_of(alloc, words.as_slice())?;
    machine_words::add_table(alloc, TABLE_RULES, &mut machine.config, points.as_slice())
}
