// The up counter.

ghost use Rattle.std.specs.Prelude.{◌≡◌, List, ◌∷◌};
ghost use Rattle.iec_blocks.specs.Counters.{counted_of, counter_after};
ghost use Rattle.iec_blocks.specs.declared.call.Call.{Call};

use crate::call::{Call, Reply};

/// An up counter: `CU` of its last call, and its `CV`.
#[derive(Clone, Copy)]
pub struct Counter {
    signal: bool,
    count: u16,
}

// The greatest INT.
const MOST_COUNT: u16 = 32_767;

impl Counter {
    /// A counter that was not called yet.
    pub const NEW: Counter = Counter {
        signal: false,
        count: 0,
    };

    /// A call of a `CTU`.
    pub fn count_up(&mut self, call: &Call) -> Reply
        ensures reply { (calls : List Call) → self.old ≡ counter_after calls →
            result ≡ counted_of (call.now ∷ calls) }
        ensures after { (calls : List Call) → self.old ≡ counter_after calls →
            self.new ≡ counter_after (call.now ∷ calls) }
    {
        if call.reset {
            self.count = 0;
        } else if call.signal && !self.signal && self.count < MOST_COUNT {
            self.count += 1;
        }
        self.signal = call.signal;
        let value = i64::from(self.count);
        Reply {
            flag: call.preset <= value,
            value,
        }
    }
}
