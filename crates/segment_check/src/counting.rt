// Whether what was before a trace segment fits.

ghost use Rattle.std.specs.Prelude.{◌↔◌, ◌<◌, ◌≤◌, ◌*◌, ◌^◌, IsTrue};
ghost use Rattle.segment_check.specs.Flaws.{CountsFit};

use motion_history::Config;
use motion_kernel::Before;

// Whether so many segments have the room for so many entries.
fn have_room(segments: u64, room: u32, count: u64) -> bool
    ensures { IsTrue result ↔ (count ≤ segments * room) }
{
    count as u128 <= segments as u128 * room as u128
}

/// Whether what was before a trace segment fits its configuration: it can be counted, each cycle was
/// an entry, and no segment had more of them than its room.
pub fn counts_fit(config: &Config, before: &Before) -> bool
    ensures { IsTrue result ↔ CountsFit config.now before.now }
{
    before.is_early()
        && before.cycles <= before.entries
        && have_room(before.segments, config.entries(), before.entries)
        && have_room(before.segments, config.cycles(), before.cycles)
}
