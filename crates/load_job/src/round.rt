// A round of a generated load.

ghost use Rattle.std.specs.Prelude.{◌≡◌, slice_index_or};
ghost use Rattle.load_job.specs.Draws.{state_after};
ghost use Rattle.load_job.specs.Rounds as spec;

use crate::draws::Draws;
use motion_history::BufferMode;

/// What a round draws.
#[derive(Clone, Copy)]
pub struct Round {
    /// The number of the axis, 0 to 7.
    pub axis: u8,
    /// Which of its blocks is called, 0 to 3.
    pub block: u8,
    /// Internal units, 0 to 1,100,000,000.
    pub position: u32,
    /// Internal units per cycle, 1 to 1,000,000.
    pub velocity: u32,
    /// Internal units per cycle per cycle, 1 to 10,000.
    pub acceleration: u32,
    /// Internal units per cycle per cycle, 1 to 10,000.
    pub deceleration: u32,
    pub mode: BufferMode,
}

/// Draws a round.
#[tactic(auto, unfolding(crate::specs::Rounds::round_from, crate::specs::Draws::drawn))]
pub fn draw_round(draws: &mut Draws) -> Round
    ensures round { result ≡ spec.round_from draws.old.state }
    ensures state { draws.new.state ≡ state_after 7 draws.old.state }
{
    Round {
        axis: draws.draw(8) as u8,
        block: draws.draw(4) as u8,
        position: (1000 * draws.draw(1_100_001)) as u32,
        velocity: (1 + draws.draw(1_000_000)) as u32,
        acceleration: (1 + draws.draw(10_000)) as u32,
        deceleration: (1 + draws.draw(10_000)) as u32,
        mode: mode_numbered(draws.draw(6)),
    }
}

// The mode of this number, in their order.
fn mode_numbered(number: u64) -> BufferMode
    ensures { result ≡ slice_index_or spec.modes number BufferMode.Aborting }
{
    match number {
        1 => BufferMode::Buffered,
        2 => BufferMode::BlendingLow,
        3 => BufferMode::BlendingPrevious,
        4 => BufferMode::BlendingNext,
        5 => BufferMode::BlendingHigh,
        _ => BufferMode::Aborting,
    }
}
