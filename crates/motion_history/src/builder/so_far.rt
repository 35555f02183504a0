// What a configuration in the making has so far.

ghost use Rattle.std.specs.Prelude.{◌≡◌};
ghost use Rattle.motion_history.specs.Setup.{IsWithin};

use super::Builder;
use crate::config::{BlockDef, GroupDef};
use cam_table::CamTable;
use plc_types::{AxisDef, Name};

impl Builder {
    /// The axes so far.
    pub fn axes(&self) -> &[AxisDef]
        ensures axes { result.now ≡ self.now.axes }
        ensures within { IsWithin self.now }
    {
        self.items.axes.as_slice()
    }

    /// The groups so far.
    pub fn groups(&self) -> &[GroupDef]
        ensures groups { result.now ≡ self.now.groups }
        ensures within { IsWithin self.now }
    {
        self.items.groups.as_slice()
    }

    /// The cam tables so far.
    pub fn tables(&self) -> &[CamTable]
        ensures tables { result.now ≡ self.now.tables }
        ensures within { IsWithin self.now }
    {
        self.items.tables.as_slice()
    }

    /// The names of the tasks so far.
    pub fn tasks(&self) -> &[Name]
        ensures tasks { result.now ≡ self.now.tasks }
        ensures within { IsWithin self.now }
    {
        self.items.tasks.as_slice()
    }

    /// The blocks so far.
    pub fn blocks(&self) -> &[BlockDef]
        ensures blocks { result.now ≡ self.now.blocks }
        ensures within { IsWithin self.now }
    {
        self.items.blocks.as_slice()
    }

    /// How many cycles there may be.
    pub fn cycles(&self) -> u32
        ensures { result ≡ self.now.cycles }
    {
        self.items.cycles
    }

    /// How many entries the history may have.
    pub fn entries(&self) -> u32
        ensures { result ≡ self.now.entries }
    {
        self.items.entries
    }
}
