// A trace as far as it was read, and how its records lead it on.

ghost use Rattle.std.specs.Prelude.{◌≡◌, ℕ, Ok, Result};
ghost use Rattle.line_text.specs.Reading.{Gives, Takes};
ghost use Rattle.line_text.specs.Texts.{texts};
ghost use Rattle.trace_text.specs.reading.Events as events;
ghost use Rattle.trace_text.specs.reading.Reading as spec;
ghost use Rattle.trace_text.specs.reading.SoFar.{SoFar};
ghost use Rattle.trace_text.specs.declared.found.FoundEntry.{FoundEntry};

use crate::command::Command;
use crate::drive_end::DriveEndRow;
use crate::found::{FoundCycle, FoundEntry};
use crate::found_list::FoundList;
use crate::reading::events::{begun, call_of, cycle_of, end_of};
use crate::reading::head::{command_of, is_header, version_of};
use crate::reading::item::{set_room, whole};
use crate::reading::kind::{Kind, Stage, is_stage, kind_of};
use crate::reading::row::{drive_of, grow_of, row_of};
use crate::reading::rule::{NO_HEADER, NOT_TWELVE, OUT_OF_PLACE, value};
use line_text::{LineFault, broken_unless, says};
use machine_words::KnownBlocks;
use motion_history::{Builder, TraceVersion};
use std::alloc::Global;
use std::marker::Model;
use std::mem;

/// A trace as far as it was read. Contracts see it as a `SoFar`.
#[derive(Drop)]
pub struct TraceReader {
    pub(crate) alloc: Global,
    pub(crate) stage: Stage,
    pub(crate) last: Kind,
    pub(crate) version: TraceVersion,
    pub(crate) command: Command,
    pub(crate) machine: Builder,
    pub(crate) known: KnownBlocks,
    pub(crate) cycle: FoundCycle,
    pub(crate) found: FoundList,
    pub(crate) drives: Vec<DriveEndRow>,
}

impl Model for TraceReader {
    ghost use Rattle.trace_text.specs.reading.SoFar.{SoFar};

    ghost Value = { SoFar };

    ghost view = { λ r. record {
      stage = r.stage;
      last = r.last;
      version = r.version;
      command = r.command;
      setup = r.machine;
      cycle = r.cycle;
      found = r.found;
      drives = r.drives.items;
    } };
}

impl TraceReader {
    /// Takes the twelve fields of a record. Where it answers an error, the reader is given up.
    #[tactic(auto, unfolding(crate::specs::reading::Reading::twelve_meaning))]
    pub fn read_fields(&mut self, fields: &[&[u8]]) -> Result<(), LineFault>
        ensures { Takes (spec.twelve_meaning self.old (texts fields.now)) self.new result }
    {
        if is_stage(self.stage, Stage::Header) {
            self.read_header(fields)
        } else if is_stage(self.stage, Stage::Room) {
            self.read_room(fields)
        } else {
            self.read_later(fields)
        }
    }

    // Takes the header.
    #[tactic(auto, unfolding(crate::specs::reading::Reading::header_meaning))]
    fn read_header(&mut self, fields: &[&[u8]]) -> Result<(), LineFault>
        ensures { Takes (spec.header_meaning self.old (texts fields.now)) self.new result }
    {
        broken_unless(is_header(fields), NO_HEADER)?;
        self.stage = Stage::Room;
        Ok(())
    }

    // Takes the record that gives the version and the room.
    #[tactic(auto, unfolding(crate::specs::reading::Reading::trace_meaning))]
    fn read_room(&mut self, fields: &[&[u8]]) -> Result<(), LineFault>
        ensures { Takes (spec.trace_meaning self.old (texts fields.now)) self.new result }
    {
        let [first, version, made_by, room @ ..] = fields else {
            return Err(LineFault::Rule(NO_HEADER));
        };
        broken_unless(says(first, b"trace"), NO_HEADER)?;
        let Some(version) = version_of(version) else {
            return Err(LineFault::Rule(NO_HEADER));
        };
        let command = value(command_of(made_by))?;
        set_room(&mut self.machine, room)?;
        self.stage = Stage::Machine;
        self.version = version;
        self.command = command;
        Ok(())
    }

    // Takes a record after the second.
    #[tactic(auto, unfolding(crate::specs::reading::Reading::later_meaning))]
    fn read_later(&mut self, fields: &[&[u8]]) -> Result<(), LineFault>
        ensures { Takes (spec.later_meaning self.old (texts fields.now)) self.new result }
    {
        let [first, fields @ ..] = fields else {
            return Err(LineFault::Rule(NOT_TWELVE));
        };
        let Some(kind) = kind_of(first) else {
            return Err(LineFault::Rule(OUT_OF_PLACE));
        };
        broken_unless(self.is_here(kind), OUT_OF_PLACE)?;
        self.read_kind(kind, fields)
    }

    // Takes the fields after the kind.
    #[tactic(auto, unfolding(crate::specs::reading::Reading::fields_meaning))]
    fn read_kind(&mut self, kind: Kind, fields: &[&[u8]]) -> Result<(), LineFault>
        ensures { Takes (spec.fields_meaning self.old kind (texts fields.now)) self.new result }
    {
        match kind {
            Kind::Axis => self.read_axis(fields),
            Kind::Group => self.read_group(fields),
            Kind::Table => self.read_table(fields),
            Kind::Task => self.read_task(fields),
            Kind::Block => self.read_block(fields),
            Kind::Call => self.read_call(fields),
            Kind::Cycle => self.read_cycle(fields),
            Kind::Row => self.read_row(fields),
            Kind::Grow => self.read_group_row(fields),
            Kind::End => self.read_end(fields),
            Kind::Drive => self.read_drive(fields),
        }
    }

    // Takes a call.
    fn read_call(&mut self, fields: &[&[u8]]) -> Result<(), LineFault>
        ensures { Takes (spec.with_entry self.old
            (events.call_meaning self.old.version self.old.setup (texts fields.now)))
            self.new result }
    {
        let entry = call_of(
            self.alloc,
            &mut self.known,
            self.version,
            &self.machine,
            fields,
        );
        self.push(entry)
    }

    // Takes the end of a task.
    fn read_end(&mut self, fields: &[&[u8]]) -> Result<(), LineFault>
        ensures { Takes (spec.with_entry self.old
            (events.end_meaning self.old.setup (texts fields.now))) self.new result }
    {
        let entry = end_of(&self.machine, fields);
        self.push(entry)
    }

    // Takes an entry.
    fn push(&mut self, entry: Result<FoundEntry, LineFault>) -> Result<(), LineFault>
        ensures { (read : Result FoundEntry ℕ) → Gives (λ e. e) read entry →
            Takes (spec.with_entry self.old read) self.new result }
    {
        let entry = entry?;
        whole(&self.machine)?;
        let Ok(()) = self.found.push(entry) else {
            return Err(LineFault::OutOfMemory);
        };
        self.stage = Stage::Entries;
        Ok(())
    }

    // Takes the beginning of a cycle.
    #[tactic(auto, unfolding(crate::specs::reading::Reading::fields_meaning, crate::specs::reading::Reading::with_cycle))]
    fn read_cycle(&mut self, fields: &[&[u8]]) -> Result<(), LineFault>
        ensures { Takes (spec.fields_meaning self.old Kind.Cycle (texts fields.now))
            self.new result }
    {
        let number = cycle_of(fields)?;
        whole(&self.machine)?;
        let cycle = begun(self.alloc, self.version, &self.machine, number)?;
        self.stage = Stage::Rows;
        self.cycle = cycle;
        Ok(())
    }

    // Takes the row of the next axis.
    #[tactic(auto, unfolding(crate::specs::reading::Reading::rows_meaning))]
    fn read_row(&mut self, fields: &[&[u8]]) -> Result<(), LineFault>
        ensures { Takes (spec.rows_meaning self.old (texts fields.now)) self.new result }
    {
        let (row, place) = row_of(self.version, &self.machine, self.cycle.axes(), fields)?;
        let Ok(()) = self.cycle.push_row(row, place) else {
            return Err(LineFault::OutOfMemory);
        };
        self.end_cycle()
    }

    // Takes the row of the next group.
    #[tactic(auto, unfolding(crate::specs::reading::Reading::grows_meaning))]
    fn read_group_row(&mut self, fields: &[&[u8]]) -> Result<(), LineFault>
        ensures { Takes (spec.grows_meaning self.old (texts fields.now)) self.new result }
    {
        let row = grow_of(&self.machine, self.cycle.groups(), fields)?;
        let Ok(()) = self.cycle.push_group(row) else {
            return Err(LineFault::OutOfMemory);
        };
        self.end_cycle()
    }

    // Whether the cycle has a row for each axis and each group.
    fn is_whole_cycle(&self) -> bool
        ensures { result ≡ spec.is_whole_cycle self.now.setup self.now.cycle }
    {
        self.machine.axes().len() <= self.cycle.axes()
            && self.machine.groups().len() <= self.cycle.groups()
    }

    // Makes an entry of the cycle where it is whole.
    #[tactic(auto, unfolding(crate::specs::reading::Reading::cycle_after))]
    fn end_cycle(&mut self) -> Result<(), LineFault>
        ensures { (s : SoFar) → record s { cycle = self.old.cycle } ≡ self.old →
            Takes (Ok (spec.cycle_after s self.old.cycle)) self.new result }
    {
        if !self.is_whole_cycle() {
            return Ok(());
        }
        let cycle = mem::replace(&mut self.cycle, FoundCycle::new(self.alloc, 0));
        let Ok(()) = self.found.push(FoundEntry::Cycle(cycle)) else {
            return Err(LineFault::OutOfMemory);
        };
        self.stage = Stage::Entries;
        Ok(())
    }

    // Takes what the next drive took.
    #[tactic(auto, unfolding(crate::specs::reading::Reading::fields_meaning, crate::specs::reading::Reading::drives_meaning))]
    fn read_drive(&mut self, fields: &[&[u8]]) -> Result<(), LineFault>
        ensures { Takes (spec.fields_meaning self.old Kind.Drive (texts fields.now))
            self.new result }
    {
        let drive = drive_of(&self.machine, self.drives.len(), fields)?;
        whole(&self.machine)?;
        let Ok(()) = self.drives.push(drive) else {
            return Err(LineFault::OutOfMemory);
        };
        self.stage = Stage::Drives;
        Ok(())
    }
}
