// The header after a segment.

ghost use Rattle.std.specs.Prelude.{◌≡◌, IfOk};
ghost use Rattle.motion_kernel.specs.Segments.{IsEarly};
ghost use Rattle.segment_check.specs.Next.{IsHeaderBehind};

use motion_kernel::SegmentedKernel;
use segment_text::{header_text, numbers_have_bits};
use std::alloc::Global;
use trace_check::OutOfMemory;

/// The header with which the trace segment after a kernel's segment must begin. It takes memory for
/// one segment more, and for the header.
pub fn header_behind(alloc: Global, mut kernel: SegmentedKernel) -> Result<Vec<u8>, OutOfMemory>
    requires { IsEarly kernel.before }
    ensures { IfOk result (λ header. IsHeaderBehind kernel header.items) }
{
    let _ = kernel.history();
    let mut segment = kernel.spare(alloc)?;
    kernel.swap(&mut segment);
    numbers_have_bits(kernel.config(), kernel.start());
    let next = kernel.before();
    if !next.is_early() {
        return Ok(Vec::new(alloc));
    }
    header_text(alloc, kernel.config(), &next, kernel.start())
}
