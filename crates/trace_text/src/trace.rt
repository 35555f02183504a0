// A trace that was read.

ghost use Rattle.std.specs.Prelude.{◌≡◌, length, slice_get};
ghost use Rattle.std.specs.Option.{option_copied, option_map};
ghost use Rattle.motion_history.specs.Looks.{told};
ghost use Rattle.trace_text.specs.TraceKept.{IsTraceKept};
ghost use Rattle.trace_text.specs.TraceState.{entries_of, place_at};

use crate::command::Command;
use crate::drive_end::DriveEndRow;
use crate::found_list::FoundList;
use motion_history::{Config, EntryLook, TraceVersion};
use std::marker::Model;

/// A trace that was read. Contracts see it as a `TraceState`.
#[derive(Drop)]
pub struct Trace {
    pub(crate) version: TraceVersion,
    pub(crate) command: Command,
    pub(crate) config: Config,
    pub(crate) found: FoundList,
    pub(crate) drives: Vec<DriveEndRow>,
}

impl Model for Trace {
    ghost use Rattle.trace_text.specs.TraceState.{TraceState};

    ghost Value = { TraceState };

    ghost view = { λ t. record {
      version = t.version;
      command = t.command;
      config = t.config;
      found = t.found;
      drives = t.drives.items;
    } };

    ghost use Rattle.trace_text.specs.TraceKept.{IsTraceKept};

    ghost invariant = { λ t. IsTraceKept (record {
      version = t.version;
      command = t.command;
      config = t.config;
      found = t.found;
      drives = t.drives.items;
    }) };
}

impl Trace {
    /// Its version, 1 to 3.
    pub fn version(&self) -> TraceVersion
        ensures { result ≡ self.now.version }
    {
        self.version
    }

    /// Who made it.
    pub fn command(&self) -> Command
        ensures { result ≡ self.now.command }
    {
        self.command
    }

    /// The configuration of its machine.
    pub fn config(&self) -> &Config
        ensures { result.now ≡ self.now.config }
    {
        &self.config
    }

    /// How many entries it has.
    pub fn entries(&self) -> u64
        ensures count { result ≡ length (entries_of self.now) }
        ensures kept { IsTraceKept self.now }
    {
        self.found.len() as u64
    }

    /// The entry at a place counted from 0, with the cycle number found. In its rows every offset
    /// is 0, and every mode given is 8.
    pub fn look(&self, place: u64) -> Option<EntryLook<'_>>
        ensures { option_map told result ≡ slice_get (entries_of self.now) place }
    {
        self.found.look(place as usize)
    }

    /// What the drives took, in the order of their axes.
    pub fn drives(&self) -> &[DriveEndRow]
        ensures items { result.now ≡ self.now.drives }
        ensures each { length result.now ≡ length self.now.config.axes }
    {
        self.drives.as_slice()
    }

    /// The place that the drive of an axis reported in the entry at a place counted from 0, as
    /// found, in internal units. There is none in version 1, nor where the entry is no cycle.
    pub fn actual_of(&self, place: u64, axis: u8) -> Option<i64>
        ensures { result ≡ place_at self.now place axis }
    {
        let places = self.found.places(place as usize)?;
        places.get(axis as usize).copied()
    }
}
