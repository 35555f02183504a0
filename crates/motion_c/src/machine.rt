// What a handle holds.

use lasting_kernel::LastingKernel;
use motion_history::TraceVersion;
use outside::MemorySink;

/// The machine after a handle: its kernel, the version of the text that it was opened by, the
/// microseconds of a cycle where that was a configuration and 0 where it was a bench, and the trace
/// or the trace segment of one that was made of it last, if one was.
#[derive(Drop)]
pub struct Machine {
    pub(crate) kernel: LastingKernel,
    pub(crate) version: TraceVersion,
    pub(crate) cycle_us: u32,
    pub(crate) trace: Option<MemorySink>,
}
