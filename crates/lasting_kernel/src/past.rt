// All that was before a segment.

ghost use Rattle.std.specs.Prelude.{List};
ghost use Rattle.motion_history.specs.Entries.{Entry};

use crate::kernel_with_past::KernelWithPast;
use motion_kernel::SegmentedKernel;
use std::marker::{Model, PhantomData};

/// All entries before a segment. Contracts alone see them: none is in memory, and it has no bytes.
/// Only `none` and `joined` make one.
pub(crate) struct Past {
    marker: PhantomData<u8>,
    pub(crate) ghost entries: { List Entry },
}

impl Model for Past {
    ghost use base.Fml.{ftrue};

    ghost also_owns = { λ _. ftrue };
}

impl Drop for Past {
    fn drop(self) {
        let Self { marker: _ } = self;
    }
}

impl Past {
    ghost use Rattle.std.specs.Prelude.{◌≡◌, ◌++◌, []};
    ghost use Rattle.motion_history.specs.Entries.{cycles_of};
    ghost use Rattle.motion_kernel.specs.Segments.{counted_on};

    /// Nothing was before the segment of this kernel.
    pub(crate) fn none(of: &SegmentedKernel) -> Past
        ensures { result.entries ≡ [] }
    {
        let _ = of;
        Past {
            marker: PhantomData,
        }
    }

    /// The entries before a segment, and the segment's after them, their cycles counted on.
    pub(crate) fn joined(of: &KernelWithPast) -> Past
        ensures { result.entries ≡
            of.now.past.entries ++
            counted_on (cycles_of of.now.past.entries) of.now.kernel.history }
    {
        let _ = of;
        Past {
            marker: PhantomData,
        }
    }
}

unsafe impl Send for Past {}
