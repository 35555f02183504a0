// The standard function blocks.

ghost use Rattle.std.specs.Prelude.{◌≡◌, List, [], ◌∷◌};
ghost use Rattle.iec_tree.specs.declared.standard.Standard.{Standard};
ghost use Rattle.iec_blocks.specs.Blocks.{reply_of, block_after, standard_of};
ghost use Rattle.iec_blocks.specs.declared.call.Call.{Call};

use crate::bistable::Bistable;
use crate::call::{Call, Reply};
use crate::counter::Counter;
use crate::pulse::Pulse;
use crate::timer::Timer;
use crate::trigger::Trigger;
use iec_tree::Standard;

/// A standard function block, with what it keeps from call to call.
#[derive(Clone, Copy)]
pub enum Block {
    Ton(Timer),
    Tof(Timer),
    Tp(Pulse),
    RTrig(Trigger),
    FTrig(Trigger),
    Ctu(Counter),
    Sr(Bistable),
    Rs(Bistable),
}

impl Block {
    /// A block that was not called yet.
    pub fn new(standard: Standard) -> Block
        ensures { result ≡ block_after standard [] }
    {
        match standard {
            Standard::Ton => Block::Ton(Timer::NEW),
            Standard::Tof => Block::Tof(Timer::NEW),
            Standard::Tp => Block::Tp(Pulse::NEW),
            Standard::RTrig => Block::RTrig(Trigger::NEW),
            Standard::FTrig => Block::FTrig(Trigger::NEW),
            Standard::Ctu => Block::Ctu(Counter::NEW),
            Standard::Sr => Block::Sr(Bistable::NEW),
            Standard::Rs => Block::Rs(Bistable::NEW),
        }
    }

    /// Calls the block. Its reply is that of its calls so far with this one, whatever they were.
    #[tactic(auto, using(crate::proofs::BlockLemmas::of_kind))]
    pub fn call(&mut self, call: &Call) -> Reply
        ensures reply { (standard : Standard) (calls : List Call) →
            self.old ≡ block_after standard calls →
            result ≡ reply_of standard (call.now ∷ calls) }
        ensures after { (standard : Standard) (calls : List Call) →
            self.old ≡ block_after standard calls →
            self.new ≡ block_after standard (call.now ∷ calls) }
    {
        reply_to(self, call)
    }
}

// Calls a block, whichever it is.
fn reply_to(block: &mut Block, call: &Call) -> Reply
    ensures reply { (calls : List Call) → block.old ≡ block_after (standard_of block.old) calls →
        result ≡ reply_of (standard_of block.old) (call.now ∷ calls) }
    ensures after { (calls : List Call) → block.old ≡ block_after (standard_of block.old) calls →
        block.new ≡ block_after (standard_of block.old) (call.now ∷ calls) }
{
    match block {
        Block::Ton(timer) => timer.on_delay(call),
        Block::Tof(timer) => timer.off_delay(call),
        Block::Tp(pulse) => pulse.pulse(call),
        Block::RTrig(trigger) => trigger.rising(call),
        Block::FTrig(trigger) => trigger.falling(call),
        Block::Ctu(counter) => counter.count_up(call),
        Block::Sr(bistable) => bistable.set_first(call),
        Block::Rs(bistable) => bistable.reset_first(call),
    }
}
