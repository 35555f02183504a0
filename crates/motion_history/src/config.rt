// A configuration: the axes, groups, cam tables, tasks and blocks of a machine, and the room of its
// history.

ghost use Rattle.std.specs.Prelude.{◌≡◌, ◌↔◌, IfOk, IsTrue};
ghost use Rattle.motion_history.specs.Calls as calls;
ghost use Rattle.motion_history.specs.Calls.{IsCall};
ghost use Rattle.motion_history.specs.Setup.{IsSetup};
ghost use Rattle.motion_history.specs.Items.{setup_of};
ghost use Rattle.motion_history.specs.Members.{members_of};

use crate::sizes::MOST_MEMBERS;
use crate::tables::copied_tables;
use cam_table::CamTable;
use motion_numbers::OutOfMemory;
use plc_types::{AxisDef, BlockKind, Inputs, Name, are_inputs};
use std::alloc::Global;
use std::marker::Model;

/// A group of axes.
#[derive(Clone, Copy)]
pub struct GroupDef {
    pub name: Name,
    /// How many axes it has, 2 to 6.
    pub count: u8,
    /// The numbers of its axes; 0 from `count` on.
    pub axes: [u8; 6],
}

impl GroupDef {
    /// The numbers of its axes, in their order.
    pub fn members(&self) -> &[u8]
        ensures { result.now ≡ members_of self.now }
    {
        &self.axes[..(self.count as usize).min(MOST_MEMBERS)]
    }
}

/// An instance of a function block.
#[derive(Clone, Copy)]
pub struct BlockDef {
    pub name: Name,
    /// The number of the task that calls it.
    pub task: u8,
    pub kind: BlockKind,
    /// The number of the axis or group on which its kind acts.
    pub object: u8,
}

/// The items of a configuration.
#[derive(Drop)]
pub struct Items {
    pub(crate) axes: Vec<AxisDef>,
    pub(crate) groups: Vec<GroupDef>,
    pub(crate) tables: Vec<CamTable>,
    pub(crate) tasks: Vec<Name>,
    pub(crate) blocks: Vec<BlockDef>,
    pub(crate) cycles: u32,
    pub(crate) entries: u32,
}

/// A configuration, which `Builder` alone makes. Contracts see it as a `Setup`.
#[derive(Drop)]
pub struct Config {
    pub(crate) items: Items,
}

impl Model for Config {
    ghost use Rattle.motion_history.specs.Setup.{Setup, IsSetup};

    ghost Value = { Setup };

    ghost use Rattle.motion_history.specs.Items.{setup_of};

    ghost view = { λ c. setup_of c.items };

    ghost invariant = { λ c. IsSetup (setup_of c.items) };
}

impl Config {
    /// The axes, in the order of their numbers.
    pub fn axes(&self) -> &[AxisDef]
        ensures axes { result.now ≡ self.now.axes }
        ensures setup { IsSetup self.now }
    {
        self.items.axes.as_slice()
    }

    /// The groups, in the order of their numbers.
    pub fn groups(&self) -> &[GroupDef]
        ensures { result.now ≡ self.now.groups }
    {
        self.items.groups.as_slice()
    }

    /// The cam tables, in the order of their numbers.
    pub fn tables(&self) -> &[CamTable]
        ensures { result.now ≡ self.now.tables }
    {
        self.items.tables.as_slice()
    }

    /// The names of the tasks, in the order of their numbers.
    pub fn tasks(&self) -> &[Name]
        ensures { result.now ≡ self.now.tasks }
    {
        self.items.tasks.as_slice()
    }

    /// The blocks, in the order of their numbers.
    pub fn blocks(&self) -> &[BlockDef]
        ensures { result.now ≡ self.now.blocks }
    {
        self.items.blocks.as_slice()
    }

    /// Whether a block may be called with these inputs: what the caller of a kernel must show.
    pub fn may_be_called(&self, instance: u16, inputs: &Inputs) -> bool
        ensures { IsTrue result ↔ IsCall self.now instance inputs.now }
    {
        match self.blocks().get(instance as usize) {
            Some(block) => {
                (inputs.master as usize) < self.axes().len()
                    && are_inputs(block.kind, self.axes_of(block), inputs)
            }
            None => false,
        }
    }

    // On how many axes a block acts.
    fn axes_of(&self, block: &BlockDef) -> u8
        ensures { result ≡ calls.axes_of self.now block.now }
    {
        if !block.kind.acts_on_group() {
            return 1;
        }
        match self.groups().get(block.object as usize) {
            Some(group) => group.count,
            None => 0,
        }
    }

    /// How many cycles there may be, 1 to 200,000.
    pub fn cycles(&self) -> u32
        ensures { result ≡ self.now.cycles }
    {
        self.items.cycles
    }

    /// How many entries the history may have, 1 to 1,000,000.
    pub fn entries(&self) -> u32
        ensures { result ≡ self.now.entries }
    {
        self.items.entries
    }

    /// An equal configuration.
    pub fn copy(&self, alloc: Global) -> Result<Config, OutOfMemory>
        ensures { IfOk result (λ c. c ≡ self.now) }
    {
        let items = copied(alloc, &self.items)?;
        Ok(Config { items })
    }
}

// The same items in memory of their own.
fn copied(alloc: Global, items: &Items) -> Result<Items, OutOfMemory>
    ensures { IfOk result (λ c. setup_of c ≡ setup_of items.now) }
{
    Ok(Items {
        axes: Vec::from_slice(alloc, items.axes.as_slice())?,
        groups: Vec::from_slice(alloc, items.groups.as_slice())?,
        tables: copied_tables(alloc, items.tables.as_slice())?,
        tasks: Vec::from_slice(alloc, items.tasks.as_slice())?,
        blocks: Vec::from_slice(alloc, items.blocks.as_slice())?,
        cycles: items.cycles,
        entries: items.entries,
    })
}
