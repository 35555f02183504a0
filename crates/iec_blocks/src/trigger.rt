// Edge detection.

ghost use Rattle.std.specs.Prelude.{◌≡◌, List, ◌∷◌};
ghost use Rattle.iec_blocks.specs.Triggers.{rising_of, falling_of, trigger_after};
ghost use Rattle.iec_blocks.specs.declared.call.Call.{Call};

use crate::call::{Call, Reply, fell, rose};

/// A trigger: `CLK` of its last call.
#[derive(Clone, Copy)]
pub struct Trigger {
    signal: bool,
}

impl Trigger {
    /// A trigger that was not called yet.
    pub const NEW: Trigger = Trigger { signal: false };

    /// A call of an `R_TRIG`.
    pub fn rising(&mut self, call: &Call) -> Reply
        ensures reply { (calls : List Call) → self.old ≡ trigger_after calls →
            result ≡ rising_of (call.now ∷ calls) }
        ensures after { (calls : List Call) → self.old ≡ trigger_after calls →
            self.new ≡ trigger_after (call.now ∷ calls) }
    {
        let flag = rose(self.signal, call.signal);
        self.signal = call.signal;
        Reply { flag, value: 0 }
    }

    /// A call of an `F_TRIG`.
    pub fn falling(&mut self, call: &Call) -> Reply
        ensures reply { (calls : List Call) → self.old ≡ trigger_after calls →
            result ≡ falling_of (call.now ∷ calls) }
        ensures after { (calls : List Call) → self.old ≡ trigger_after calls →
            self.new ≡ trigger_after (call.now ∷ calls) }
    {
        let flag = fell(self.signal, call.signal);
        self.signal = call.signal;
        Reply { flag, value: 0 }
    }
}
