// On-delay and off-delay timers.

ghost use Rattle.std.specs.Prelude.{◌≡◌, ◌^◌, ◌<◌, pos, not, ◌&&◌, ◌||◌, if◌then◌else◌, Option, Some, List, ◌∷◌};
ghost use Rattle.iec_blocks.specs.Calls.{rises, falls};
ghost use Rattle.iec_blocks.specs.Timers as spec;
ghost use Rattle.iec_blocks.specs.Timers.{on_delay_of, off_delay_of, timer_after};
ghost use Rattle.iec_blocks.specs.declared.call.Call.{Call};

use crate::call::{Call, Reply, fell, rose};

/// An on-delay or off-delay timer: `IN` of its last call, and when its latest delay began.
#[derive(Clone, Copy)]
pub struct Timer {
    signal: bool,
    begin: Option<u64>,
}

impl Timer {
    /// A timer that was not called yet.
    pub const NEW: Timer = Timer {
        signal: false,
        begin: None,
    };

    /// A call of a `TON`.
    pub fn on_delay(&mut self, call: &Call) -> Reply
        ensures reply { (calls : List Call) → self.old ≡ timer_after rises calls →
            result ≡ on_delay_of (call.now ∷ calls) }
        ensures after { (calls : List Call) → self.old ≡ timer_after rises calls →
            self.new ≡ timer_after rises (call.now ∷ calls) }
    {
        *self = timer_after_call(*self, rose(self.signal, call.signal), call);
        Reply {
            flag: is_past_end(*self, call),
            value: shown(call.signal, self.begin, call),
        }
    }

    /// A call of a `TOF`.
    pub fn off_delay(&mut self, call: &Call) -> Reply
        ensures reply { (calls : List Call) → self.old ≡ timer_after falls calls →
            result ≡ off_delay_of (call.now ∷ calls) }
        ensures after { (calls : List Call) → self.old ≡ timer_after falls calls →
            self.new ≡ timer_after falls (call.now ∷ calls) }
    {
        *self = timer_after_call(*self, fell(self.signal, call.signal), call);
        Reply {
            flag: is_on(*self, call),
            value: shown(!call.signal, self.begin, call),
        }
    }
}

// A timer after a call at which its delay may begin.
fn timer_after_call(timer: Timer, begins: bool, call: &Call) -> Timer
    ensures { result ≡ record {
      signal = call.now.signal;
      begin = if begins then Some call.now.time else timer.begin;
    } }
{
    Timer {
        signal: call.signal,
        begin: begin_after(begins, timer.begin, call),
    }
}

// `Q` of an on-delay timer.
fn is_past_end(timer: Timer, call: &Call) -> bool
    ensures { result ≡ (timer.signal && not (spec.is_before_end timer.begin call.now)) }
{
    timer.signal && !is_before_end(timer.begin, call)
}

// `Q` of an off-delay timer.
fn is_on(timer: Timer, call: &Call) -> bool
    ensures { result ≡ (timer.signal || spec.is_before_end timer.begin call.now) }
{
    timer.signal || is_before_end(timer.begin, call)
}

// When the latest delay or pulse began, after a call at which one may begin.
pub(crate) fn begin_after(begins: bool, begin: Option<u64>, call: &Call) -> Option<u64>
    ensures { result ≡ (if begins then Some call.now.time else begin) }
{
    if begins { Some(call.time) } else { begin }
}

// `PT` of a call; a negative one counts as 0.
#[tactic(auto, unfolding(crate::specs::Timers::preset_of))]
fn preset_of(call: &Call) -> u64
    ensures value { result ≡ spec.preset_of call.now }
    ensures small { result < 2 ^ 63 }
{
    call.preset.max(0).unsigned_abs()
}

// Whether a call comes before `PT` has passed since a begin.
#[tactic(auto, unfolding(crate::specs::Timers::is_before_end))]
pub(crate) fn is_before_end(begin: Option<u64>, call: &Call) -> bool
    ensures { result ≡ spec.is_before_end begin call.now }
{
    match begin {
        Some(begin) => call.time.saturating_sub(begin) < preset_of(call),
        None => false,
    }
}

// The time from a begin to a call, at most `PT`.
#[tactic(auto, unfolding(crate::specs::Timers::elapsed_of))]
fn elapsed_of(begin: Option<u64>, call: &Call) -> u64
    ensures value { result ≡ spec.elapsed_of begin call.now }
    ensures small { result < 2 ^ 63 }
{
    match begin {
        Some(begin) => call.time.saturating_sub(begin).min(preset_of(call)),
        None => 0,
    }
}

// `ET`: that time where it is shown, else 0.
pub(crate) fn shown(is_shown: bool, begin: Option<u64>, call: &Call) -> i64
    ensures { result ≡ (if is_shown then pos (spec.elapsed_of begin call.now) else pos 0) }
{
    if is_shown {
        elapsed_of(begin, call) as i64
    } else {
        0
    }
}
