// What a scope report reports.

ghost use Rattle.std.specs.Prelude.{◌≡◌};

use plc_types::Name;
use std::marker::Model;

/// What is reported of an axis, over all rows of a trace.
#[derive(Clone, Copy)]
pub struct AxisReport {
    pub name: Name,
    /// In how many rows it is driven.
    pub driven: u64,
    /// The least and the greatest setpoint of the driven rows, in internal units; none where no row
    /// is driven.
    pub least: Option<i64>,
    pub greatest: Option<i64>,
    /// In how many rows its setpoint is the one of the row before.
    pub still: u64,
    /// How far its setpoint went from row to row, in internal units.
    pub travel: u128,
}

/// What is reported of a block, over all calls of a trace.
#[derive(Clone, Copy)]
pub struct BlockReport {
    pub name: Name,
    pub calls: u64,
    /// How many replies show Done.
    pub done: u64,
    /// How many replies show Error.
    pub errors: u64,
}

/// What is reported of each axis and of each block, in the order of the trace.
#[derive(Drop)]
pub struct Report {
    pub(crate) axes: Vec<AxisReport>,
    pub(crate) blocks: Vec<BlockReport>,
}

impl Model for Report {
    ghost use Rattle.scope_report.specs.Reports.{ReportState};

    ghost Value = { ReportState };

    ghost view = { λ r. record { axes = r.axes.items; blocks = r.blocks.items } };
}

impl Report {
    /// What is reported of each axis.
    pub fn axes(&self) -> &[AxisReport]
        ensures { result.now ≡ self.now.axes }
    {
        self.axes.as_slice()
    }

    /// What is reported of each block.
    pub fn blocks(&self) -> &[BlockReport]
        ensures { result.now ≡ self.now.blocks }
    {
        self.blocks.as_slice()
    }
}
