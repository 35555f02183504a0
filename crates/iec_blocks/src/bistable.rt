// Bistables.

ghost use Rattle.std.specs.Prelude.{◌≡◌, List, ◌∷◌};
ghost use Rattle.iec_blocks.specs.Bistables.{set_dominant, reset_dominant, reply_with, bistable_with};
ghost use Rattle.iec_blocks.specs.declared.call.Call.{Call};

use crate::call::{Call, Reply};

/// A bistable: its `Q1`.
#[derive(Clone, Copy)]
pub struct Bistable {
    flag: bool,
}

impl Bistable {
    /// A bistable that was not called yet.
    pub const NEW: Bistable = Bistable { flag: false };

    /// A call of an `SR`.
    pub fn set_first(&mut self, call: &Call) -> Reply
        ensures reply { (calls : List Call) → self.old ≡ bistable_with (set_dominant calls) →
            result ≡ reply_with (set_dominant (call.now ∷ calls)) }
        ensures after { (calls : List Call) → self.old ≡ bistable_with (set_dominant calls) →
            self.new ≡ bistable_with (set_dominant (call.now ∷ calls)) }
    {
        self.flag = call.signal || (self.flag && !call.reset);
        Reply {
            flag: self.flag,
            value: 0,
        }
    }

    /// A call of an `RS`.
    pub fn reset_first(&mut self, call: &Call) -> Reply
        ensures reply { (calls : List Call) → self.old ≡ bistable_with (reset_dominant calls) →
            result ≡ reply_with (reset_dominant (call.now ∷ calls)) }
        ensures after { (calls : List Call) → self.old ≡ bistable_with (reset_dominant calls) →
            self.new ≡ bistable_with (reset_dominant (call.now ∷ calls)) }
    {
        self.flag = (call.signal || self.flag) && !call.reset;
        Reply {
            flag: self.flag,
            value: 0,
        }
    }
}
