// Where the records of a trace may stand.

ghost use Rattle.std.specs.Prelude.{◌≡◌};
ghost use Rattle.trace_text.specs.reading.Kinds as kinds;

use crate::reading::kind::{Kind, Stage, is_stage, rank_of};
use crate::reading::reader::TraceReader;

impl TraceReader {
    /// Whether a record of a kind may stand here.
    #[tactic(auto, unfolding(crate::specs::reading::Kinds::is_here))]
    pub fn is_here(&self, kind: Kind) -> bool
        ensures { result ≡ kinds.is_here self.now kind }
    {
        match kind {
            Kind::Axis | Kind::Group | Kind::Table | Kind::Task | Kind::Block => {
                self.is_item_here(kind)
            }
            Kind::Call | Kind::Cycle | Kind::End => self.is_entry_here(),
            Kind::Row => self.is_row_here(),
            Kind::Grow => self.is_group_row_here(),
            Kind::Drive => self.is_drive_here(),
        }
    }

    // Whether an item of a kind may stand here.
    fn is_item_here(&self, kind: Kind) -> bool
        ensures { result ≡ kinds.is_item_here self.now kind }
    {
        is_stage(self.stage, Stage::Machine) && rank_of(self.last) <= rank_of(kind)
    }

    // Whether an entry may begin here.
    fn is_entry_here(&self) -> bool
        ensures { result ≡ kinds.is_entry_here self.now }
    {
        is_stage(self.stage, Stage::Machine) || is_stage(self.stage, Stage::Entries)
    }

    // Whether a row of an axis may stand here.
    #[tactic(auto, unfolding(crate::specs::reading::Kinds::is_here))]
    fn is_row_here(&self) -> bool
        ensures { result ≡ kinds.is_here self.now Kind.Row }
    {
        is_stage(self.stage, Stage::Rows) && self.cycle.axes() < self.machine.axes().len()
    }

    // Whether a row of a group may stand here.
    #[tactic(auto, unfolding(crate::specs::reading::Kinds::is_here))]
    fn is_group_row_here(&self) -> bool
        ensures { result ≡ kinds.is_here self.now Kind.Grow }
    {
        is_stage(self.stage, Stage::Rows) && self.machine.axes().len() <= self.cycle.axes()
    }

    // Whether what a drive took may stand here.
    #[tactic(auto, unfolding(crate::specs::reading::Kinds::is_here))]
    fn is_drive_here(&self) -> bool
        ensures { result ≡ kinds.is_here self.now Kind.Drive }
    {
        (self.is_entry_here() || is_stage(self.stage, Stage::Drives))
            && self.drives.len() < self.machine.axes().len()
    }
}
