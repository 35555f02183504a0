// The history of a kernel: each call, cycle and end of a task, in room that is reserved at opening.

ghost use Rattle.std.specs.Prelude.{◌≡◌, ◌<◌, ◌≤◌, ◌+◌, ◌-◌, ◌*◌, ◌++◌, ◌∷◌, [], All, IfOk, length, slice_get};
ghost use Rattle.std.specs.Option.{option_map};
ghost use Rattle.motion_history.specs.Entries.{call, cycle, end_of, cycles_of, HistoryState};
ghost use Rattle.motion_history.specs.Bits.{HasBits};
ghost use Rattle.motion_history.specs.LastCycles.{cycle_told, last_cycle_of};
ghost use Rattle.motion_history.specs.Looks.{told};
ghost use Rattle.motion_history.specs.Rows as kept;
ghost use Rattle.motion_history.specs.Stored.{call_entry};

use crate::bits::{call_has_bits, group_row_has_bits, row_has_bits};
use crate::config::Config;
use crate::entry::{CallMade, CycleLook, EntryLook, Stored, call_at, rows_at, stored_at};
use crate::touching::{NO_AXIS_ROW, NO_CALL, NO_GROUP_ROW, touch_room};
use motion_numbers::OutOfMemory;
use plc_types::{AxisRow, GroupRow, Inputs, Outputs};
use std::alloc::{AllocError, Global};
use std::marker::Model;

/// A history. Contracts see it as a `HistoryState`.
#[derive(Drop)]
pub struct History {
    stored: Vec<Stored>,
    calls: Vec<CallMade>,
    axis_rows: Vec<AxisRow>,
    group_rows: Vec<GroupRow>,
    axes: usize,
    groups: usize,
    room: u32,
    made: u32,
    most: u32,
}

impl Model for History {
    ghost use Rattle.motion_history.specs.Entries.{HistoryState};

    ghost Value = { HistoryState };

    ghost use Rattle.motion_history.specs.Kept.{state_of, IsWhole};

    ghost view = { state_of };

    ghost invariant = { IsWhole };
}

impl History {
    /// An empty history with the whole room that the configuration gives it.
    pub fn open(alloc: Global, config: &Config) -> Result<History, OutOfMemory>
        ensures { IfOk result (λ h. h ≡ record {
          axes = length config.now.axes;
          groups = length config.now.groups;
          room = config.now.entries;
          cycles = config.now.cycles;
          entries = [];
          rows = [];
          group_rows = [];
        }) }
    {
        reserved(alloc, config).map_err(|_| OutOfMemory)
    }

    /// Touches the memory of the whole room, so that no entry pays for its pages.
    pub fn touch(&mut self)
        ensures { self.new ≡ self.old }
    {
        touch_room(&mut self.stored, Stored::End { task: 0 });
        touch_room(&mut self.calls, NO_CALL);
        touch_room(&mut self.axis_rows, NO_AXIS_ROW);
        touch_room(&mut self.group_rows, NO_GROUP_ROW);
    }

    /// Empties it: it has its whole room again.
    pub fn clear(&mut self)
        ensures { self.new ≡ record self.old { entries = []; rows = []; group_rows = [] } }
    {
        self.stored.clear();
        self.calls.clear();
        self.axis_rows.clear();
        self.group_rows.clear();
        self.made = 0;
    }

    /// Adds a call of a block and its reply.
    pub fn record_call(&mut self, instance: u16, inputs: &Inputs, reply: &Outputs)
        requires { length self.old.entries < self.old.room }
        ensures { self.new ≡ record self.old {
          entries = self.old.entries ++ call instance inputs.now reply.now ∷ [];
        } }
    {
        // laws
        call_has_bits(inputs, reply);
        let place = self.calls.len() as u32;
        self.calls.push_reserved(CallMade {
            instance,
            inputs: *inputs,
            reply: *reply,
        });
        self.stored.push_reserved(Stored::Call { place });
    }

    /// Adds the row of one axis more to a cycle in the making.
    pub fn push_row(&mut self, row: AxisRow)
        requires cycle { cycles_of self.old.entries < self.old.cycles }
        requires room { length self.old.rows < self.old.axes }
        ensures { self.new ≡ record self.old { rows = self.old.rows ++ row ∷ [] } }
    {
        // laws
        row_has_bits(&row);
        self.axis_rows.push_reserved(row);
    }

    /// Adds the row of one group more to a cycle in the making.
    pub fn push_group_row(&mut self, row: GroupRow)
        requires cycle { cycles_of self.old.entries < self.old.cycles }
        requires room { length self.old.group_rows < self.old.groups }
        ensures { self.new ≡ record self.old { group_rows = self.old.group_rows ++ row ∷ [] } }
    {
        // laws
        group_row_has_bits(&row);
        self.group_rows.push_reserved(row);
    }

    /// Adds the cycle in the making, which has one row per axis and one per group.
    pub fn record_cycle(&mut self)
        requires room { length self.old.entries < self.old.room }
        requires cycle { cycles_of self.old.entries < self.old.cycles }
        requires axes { length self.old.rows ≡ self.old.axes }
        requires groups { length self.old.group_rows ≡ self.old.groups }
        ensures { self.new ≡ record self.old {
          entries = self.old.entries ++
              cycle (cycles_of self.old.entries + 1) self.old.rows self.old.group_rows ∷ [];
          rows = [];
          group_rows = [];
        } }
    {
        self.made += 1;
        self.stored
            .push_reserved(Stored::Cycle { number: self.made });
    }

    /// Adds the end of a task.
    pub fn record_end(&mut self, task: u8)
        requires { length self.old.entries < self.old.room }
        ensures { self.new ≡ record self.old { entries = self.old.entries ++ end_of task ∷ [] } }
    {
        self.stored.push_reserved(Stored::End { task });
    }

    /// How many entries it has.
    pub fn entries(&self) -> u64
        ensures { result ≡ length self.now.entries }
    {
        self.stored.len() as u64
    }

    /// The entry at a place counted from 0.
    pub fn look(&self, place: u64) -> Option<EntryLook<'_>>
        ensures { option_map told result ≡ slice_get self.now.entries place }
    {
        match stored_at(self.stored.as_slice(), place) {
            Some(Stored::Call { place }) => Some(call_at(self.calls.as_slice(), place)),
            Some(Stored::Cycle { number }) => Some(EntryLook::Cycle {
                number,
                axes: rows_at(self.axis_rows.as_slice(), self.axes, number),
                groups: rows_at(self.group_rows.as_slice(), self.groups, number),
            }),
            Some(Stored::End { task }) => Some(EntryLook::End { task }),
            None => None,
        }
    }

    /// The last cycle, if there was one.
    pub fn last_cycle(&self) -> Option<CycleLook<'_>>
        ensures { option_map cycle_told result ≡ last_cycle_of self.now.entries }
    {
        if self.made == 0 {
            return None;
        }
        Some(CycleLook {
            number: self.made,
            axes: rows_at(self.axis_rows.as_slice(), self.axes, self.made),
            groups: rows_at(self.group_rows.as_slice(), self.groups, self.made),
        })
    }

    /// The numbers of the entries have the bits of their types. Nothing runs.
    pub fn has_bits(&self)
        ensures { All HasBits self.now.entries }
    {
        let _made = self.made;
    }

    /// How many entries more it has room for.
    pub fn room_left(&self) -> u64
        ensures left { result ≡ self.now.room - length self.now.entries }
        ensures within { length self.now.entries ≤ self.now.room }
    {
        u64::from(self.room) - self.stored.len() as u64
    }

    /// How many cycles more it may have.
    pub fn cycles_left(&self) -> u32
        ensures left { result ≡ self.now.cycles - cycles_of self.now.entries }
        ensures within { cycles_of self.now.entries ≤ self.now.cycles }
    {
        self.most - self.made
    }
}

// An empty history with its whole room.
fn reserved(alloc: Global, config: &Config) -> Result<History, AllocError>
    ensures { IfOk result (λ h. h ≡ record {
      axes = length config.now.axes;
      groups = length config.now.groups;
      room = config.now.entries;
      cycles = config.now.cycles;
      entries = [];
      rows = [];
      group_rows = [];
    }) }
{
    let axes = config.axes().len();
    let groups = config.groups().len();
    let room = config.entries();
    let most = config.cycles();
    Ok(History {
        stored: Vec::with_capacity(alloc, room as usize)?,
        calls: Vec::with_capacity(alloc, room as usize)?,
        axis_rows: Vec::with_capacity(alloc, most as usize * axes)?,
        group_rows: Vec::with_capacity(alloc, most as usize * groups)?,
        axes,
        groups,
        room,
        made: 0,
        most,
    })
}
