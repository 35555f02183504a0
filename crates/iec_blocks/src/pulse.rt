// Pulse timers.

ghost use Rattle.std.specs.Prelude.{◌≡◌, pos, not, ◌&&◌, ◌||◌, if◌then◌else◌, Some, List, ◌∷◌};
ghost use Rattle.iec_blocks.specs.Pulses.{pulse_reply_of, pulse_after};
ghost use Rattle.iec_blocks.specs.Timers as spec;
ghost use Rattle.iec_blocks.specs.declared.call.Call.{Call};

use crate::call::{Call, Reply, rose};
use crate::timer::{begin_after, is_before_end, shown};

/// A pulse timer: `IN` of its last call, when its latest pulse began, and whether that still runs.
#[derive(Clone, Copy)]
pub struct Pulse {
    signal: bool,
    begin: Option<u64>,
    running: bool,
}

impl Pulse {
    /// A pulse timer that was not called yet.
    pub const NEW: Pulse = Pulse {
        signal: false,
        begin: None,
        running: false,
    };

    /// A call of a `TP`.
    pub fn pulse(&mut self, call: &Call) -> Reply
        ensures reply { (calls : List Call) → self.old ≡ pulse_after calls →
            result ≡ pulse_reply_of (call.now ∷ calls) }
        ensures after { (calls : List Call) → self.old ≡ pulse_after calls →
            self.new ≡ pulse_after (call.now ∷ calls) }
    {
        *self = pulse_after_call(*self, call);
        reply_now(*self, call)
    }
}

// A pulse timer after a call.
#[tactic(auto, using(crate::proofs::PulseLemmas::next_pulse))]
fn pulse_after_call(pulse: Pulse, call: &Call) -> Pulse
    ensures { (calls : List Call) → pulse ≡ pulse_after calls →
        result ≡ pulse_after (call.now ∷ calls) }
{
    let running = is_still_running(pulse, call);
    let begins = rose(pulse.signal, call.signal) && !running;
    Pulse {
        signal: call.signal,
        begin: begin_after(begins, pulse.begin, call),
        running: is_running_after(begins, running, call),
    }
}

// Whether the latest pulse still runs at a call.
fn is_still_running(pulse: Pulse, call: &Call) -> bool
    ensures { result ≡ (spec.is_before_end pulse.begin call.now && pulse.running) }
{
    is_before_end(pulse.begin, call) && pulse.running
}

// Whether a pulse runs after a call at which one may begin.
fn is_running_after(begins: bool, running: bool, call: &Call) -> bool
    ensures { result ≡
        (if begins then spec.is_before_end (Some call.now.time) call.now else running) }
{
    if begins {
        is_before_end(Some(call.time), call)
    } else {
        running
    }
}

// The reply to the call that was made last.
fn reply_now(pulse: Pulse, call: &Call) -> Reply
    ensures { result ≡ record {
      flag = pulse.running;
      value = if call.now.signal || pulse.running then pos (spec.elapsed_of pulse.begin call.now)
          else pos 0;
    } }
{
    Reply {
        flag: pulse.running,
        value: shown(call.signal || pulse.running, pulse.begin, call),
    }
}
