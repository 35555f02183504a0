// A kernel with all that was before its segment.

use crate::past::Past;
use motion_kernel::SegmentedKernel;

/// A kernel with all that was before its segment.
#[derive(Drop)]
pub(crate) struct KernelWithPast {
    pub(crate) past: Past,
    pub(crate) kernel: SegmentedKernel,
}
