// The drives of a configuration.

ghost use Rattle.std.specs.Prelude.{IfOk};
ghost use Rattle.line_text.specs.Reading.{Gives};
ghost use Rattle.motion_history.specs.Drives.{IsDrive};
ghost use Rattle.toml.specs.View.{table_view};
ghost use Rattle.machine_config.specs.Drives as spec;

use crate::key::Key;
use crate::rule::DRIVE_RULES;
use crate::value::{integer_at, integers_at};
use line_text::LineFault;
use machine_words::drive_in;
use motion_history::DriveDef;
use std::alloc::Global;
use toml::Table;

/// The drive of an axis.
#[tactic(auto, unfolding(crate::specs::Drives::drive_of))]
pub fn drive_of(alloc: Global, table: &Table) -> Result<DriveDef, LineFault>
    ensures value { Gives (λ d. d) (spec.drive_of (table_view table.now)) result }
    ensures drive { IfOk result IsDrive }
{
    let Ok(faults) = integers_at(alloc, table, Key::Faults) else {
        return Err(LineFault::OutOfMemory);
    };
    let lag = integer_at(table, Key::Lag);
    drive_in(alloc, DRIVE_RULES, lag, faults.as_slice())
}
