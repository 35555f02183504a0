// What is found in a trace: its entries as they stand there.

ghost use Rattle.std.specs.Prelude.{◌≡◌, ◌++◌, ◌∷◌, [], IfErr, IfOk, OnOk, length};
ghost use Rattle.std.specs.Option.{option_to_list};

use motion_history::OutOfMemory;
use plc_types::{AxisRow, GroupRow, Inputs, Outputs};
use std::alloc::Global;
use std::marker::Model;

/// A cycle, or a part of it. Contracts see it as a `CycleFound`.
#[derive(Drop)]
pub struct FoundCycle {
    number: u32,
    axes: Vec<AxisRow>,
    groups: Vec<GroupRow>,
    places: Vec<i64>,
}

impl Model for FoundCycle {
    ghost use Rattle.trace_text.specs.Found.{CycleFound};

    ghost Value = { CycleFound };

    ghost view = { λ c. record {
      number = c.number;
      axes = c.axes.items;
      groups = c.groups.items;
      places = c.places.items;
    } };
}

/// How many rows of axes and of groups a cycle is to have, and how many places of drives.
#[derive(Clone, Copy)]
pub struct CycleRoom {
    pub axes: usize,
    pub groups: usize,
    pub places: usize,
}

/// An entry of a trace.
#[derive(Drop)]
pub enum FoundEntry {
    /// A call of a block, by its number.
    Call {
        instance: u16,
        inputs: Inputs,
        reply: Outputs,
    },
    /// A cycle.
    Cycle(FoundCycle),
    /// The end of a task, by its number.
    End {
        task: u8,
    },
}

impl FoundCycle {
    /// A cycle of this number without rows.
    pub fn new(alloc: Global, number: u32) -> FoundCycle
        ensures { result ≡ record { number = number; axes = []; groups = []; places = [] } }
    {
        FoundCycle {
            number,
            axes: Vec::new(alloc),
            groups: Vec::new(alloc),
            places: Vec::new(alloc),
        }
    }

    /// A cycle of this number without rows, with the room that it is to have.
    pub fn with_room(alloc: Global, number: u32, room: CycleRoom) -> Result<FoundCycle, OutOfMemory>
        ensures { IfOk result (λ c. c ≡
            record { number = number; axes = []; groups = []; places = [] }) }
    {
        Ok(FoundCycle {
            number,
            axes: Vec::with_capacity(alloc, room.axes)?,
            groups: Vec::with_capacity(alloc, room.groups)?,
            places: Vec::with_capacity(alloc, room.places)?,
        })
    }

    /// Its number.
    pub fn number(&self) -> u32
        ensures { result ≡ self.now.number }
    {
        self.number
    }

    /// Its rows of axes.
    pub fn rows(&self) -> &[AxisRow]
        ensures { result.now ≡ self.now.axes }
    {
        self.axes.as_slice()
    }

    /// Its rows of groups.
    pub fn group_rows(&self) -> &[GroupRow]
        ensures { result.now ≡ self.now.groups }
    {
        self.groups.as_slice()
    }

    /// The places that its drives reported.
    pub fn places(&self) -> &[i64]
        ensures { result.now ≡ self.now.places }
    {
        self.places.as_slice()
    }

    /// How many rows of axes it has.
    pub fn axes(&self) -> usize
        ensures { result ≡ length self.now.axes }
    {
        self.axes.len()
    }

    /// How many rows of groups it has.
    pub fn groups(&self) -> usize
        ensures { result ≡ length self.now.groups }
    {
        self.groups.len()
    }

    /// Adds the row of an axis, and the place that its drive reported, if it did.
    pub fn push_row(&mut self, row: AxisRow, place: Option<i64>) -> Result<(), OutOfMemory>
        ensures { OnOk result (self.new ≡ record self.old {
          axes = self.old.axes ++ row ∷ [];
          places = self.old.places ++ option_to_list place;
        }) }
    {
        let Ok(()) = self.axes.push(row) else {
            return Err(OutOfMemory);
        };
        if let Some(place) = place {
            let Ok(()) = self.places.push(place) else {
                return Err(OutOfMemory);
            };
        }
        Ok(())
    }

    /// Adds the row of a group.
    pub fn push_group(&mut self, row: GroupRow) -> Result<(), OutOfMemory>
        ensures { OnOk result (self.new ≡ record self.old {
          groups = self.old.groups ++ row ∷ [];
        }) }
    {
        let Ok(()) = self.groups.push(row) else {
            return Err(OutOfMemory);
        };
        Ok(())
    }
}
