// A standby is opened, with the feed by which it follows.

ghost use Rattle.std.specs.Prelude.{◌≤◌, IfOk};
ghost use Rattle.hot_standby.specs.Beside.{AreNew};

use crate::feed::Feed;
use crate::standby::Standby;
use motion_kernel::{Config, Kernel};
use motion_numbers::OutOfMemory;
use rtrb::RingBuffer;
use std::alloc::Global;

/// A standby of a configuration, its kernel at rest, and the feed by which it follows, through a
/// ring with 1 to 4,096 slots. All memory is taken here.
pub fn open_standby(
    alloc: Global,
    config: Config,
    room: u32,
) -> Result<(Feed, Standby), OutOfMemory>
    requires some { 1 ≤ room }
    requires few { room ≤ 4096 }
    ensures { IfOk result (λ ends. AreNew room config ends.0 ends.1) }
{
    let (feed_ring, ring) = RingBuffer::new(alloc, room as usize)?;
    let Ok(kernel) = Kernel::open(alloc, config) else {
        return Err(OutOfMemory);
    };
    let feed = Feed {
        ring: feed_ring,
        sent: 0,
    };
    let standby = Standby {
        ring,
        kernel,
        met_stranger: false,
    };
    Ok((feed, standby))
}
