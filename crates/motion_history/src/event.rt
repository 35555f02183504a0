// What happens to a kernel.

use plc_types::Inputs;

/// One event of a history, without what came of it.
#[derive(Clone, Copy, Debug, PartialEq, Eq)]
pub enum Event {
    /// A call of a block with these inputs.
    Call { instance: u16, inputs: Inputs },
    /// A cycle, counted from 1.
    Cycle { number: u32 },
    /// The end of a task.
    End { task: u8 },
}
