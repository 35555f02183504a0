// The standby: the second kernel, which makes the events that it takes from the ring.

ghost use Rattle.std.specs.Prelude.{◌≡◌, ◌≢◌, ◌<◌, ◌≤◌, ◌+◌, [], ◌∷◌, ◌++◌, IfOk, IfErr, OnOk, IfSome, IfNone, IsSome, length, drop, false};
ghost use Rattle.hot_standby.specs.Beside.{AreBeside};
ghost use Rattle.hot_standby.specs.Events.{AreFit, kernel_after_all, opened};
ghost use Rattle.hot_standby.specs.Followers.{IsFollower};
ghost use Rattle.hot_standby.specs.Strangers.{IsFirstStranger};
ghost use Rattle.hot_standby.specs.Takes.{Takes};
ghost use Rattle.rtrb.specs.Ring.{SameConsumer, known_items, received};

use crate::event::{Fed, FedEvent};
use crate::feed::Feed;
use crate::making::try_make;
use motion_kernel::Kernel;
use rtrb::Consumer;
use std::marker::Model;

/// The second kernel, with its end of the ring.
#[derive(Drop)]
pub struct Standby {
    pub(crate) ring: Consumer<FedEvent>,
    pub(crate) kernel: Kernel,
    pub(crate) met_stranger: bool,
}

impl Model for Standby {
    ghost use Rattle.hot_standby.specs.Sides.{StandbySide};

    ghost Value = { StandbySide };

    ghost use Rattle.hot_standby.specs.Inside.{standby_side_of, IsStandby};

    ghost view = { standby_side_of };

    ghost invariant = { IsStandby };
}

impl Standby {
    /// Looks at the two ends of one ring together, and answers how many events are in it.
    pub fn beside(&mut self, feed: &mut Feed) -> u32
        requires pair { self.old.ring ≡ feed.old.ring }
        ensures beside { AreBeside feed.new self.new }
        ensures count { result ≡ length self.new.waiting }
        ensures standby { self.new ≡ record self.old { waiting = self.new.waiting } }
        ensures feed { feed.new ≡ record feed.old { free = feed.new.free } }
    {
        feed.ring.slots_beside(&mut self.ring);
        self.ring.slots_beside(&mut feed.ring) as u32
    }

    /// Takes the next event, and makes it on the second kernel where it fits it. A stranger, which
    /// breaks a condition of the kernel's call, is handed out, and the kernel stays as it was.
    pub fn take(&mut self) -> Fed
        ensures takes { Takes self.old self.new result }
        ensures ring { self.new.ring ≡ self.old.ring }
        ensures succeeds { 0 < length self.old.waiting → result ≢ Fed.Empty }
    {
        let Some(event) = take_next(&mut self.ring) else {
            return Fed::Empty;
        };
        if try_make(&mut self.kernel, &event) {
            Fed::Applied
        } else {
            self.met_stranger = true;
            Fed::Stranger(event)
        }
    }

    /// The second kernel.
    pub fn kernel(&self) -> &Kernel
        ensures kernel { result.now ≡ self.now.kernel }
        ensures follower { self.now.met_stranger ≡ false → IsFollower self.now }
    {
        &self.kernel
    }

    /// Makes the events that are left in the ring, and hands out the second kernel; or the first
    /// stranger among them, where there is one.
    pub fn promote(self, feed: Feed) -> Result<Kernel, FedEvent>
        requires pair { self.ring ≡ feed.ring }
        ensures rest { IfOk result (λ k.
            k ≡ kernel_after_all self.kernel (drop (length self.taken) feed.sent)) }
        ensures all { self.met_stranger ≡ false → IfOk result (λ k.
            k ≡ kernel_after_all (opened self.kernel.config) feed.sent) }
        ensures fit { OnOk result (AreFit self.kernel (drop (length self.taken) feed.sent)) }
        ensures stranger { IfErr result
            (IsFirstStranger self.kernel (drop (length self.taken) feed.sent)) }
    {
        let Standby {
            mut ring,
            mut kernel,
            ..
        } = self;
        let Feed {
            ring: mut feed_ring,
            ..
        } = feed;
        ring.slots_beside(&mut feed_ring);
        match make_known(&mut ring, &mut kernel) {
            Some(stranger) => Err(stranger),
            None => Ok(kernel),
        }
    }
}

// Makes the events that are known to be in the ring, up to the first stranger, which it answers.
fn make_known(ring: &mut Consumer<FedEvent>, kernel: &mut Kernel) -> Option<FedEvent>
    ensures made { IfNone result
        (kernel.new ≡ kernel_after_all kernel.old (known_items ring.old)) }
    ensures fit { IfNone result (AreFit kernel.old (known_items ring.old)) }
    ensures stranger { IfSome result (IsFirstStranger kernel.old (known_items ring.old)) }
{
    for made in 0..ring.cached_slots() {
        let event = ring.pop_known();
        if !try_make(kernel, &event) {
            return Some(event);
        }
    }
    None
}

// Takes the next event, without another look where one is known to be there.
fn take_next(ring: &mut Consumer<FedEvent>) -> Option<FedEvent>
    ensures ring { SameConsumer ring.old ring.new }
    ensures taken { IfSome result (λ next. received ring.new ≡ received ring.old ++ next ∷ []) }
    ensures known { 0 < length (known_items ring.old) →
        IfSome result (λ next. known_items ring.old ≡ next ∷ known_items ring.new) }
    ensures none { IfNone result (received ring.new ≡ received ring.old) }
    ensures empty { IfNone result (known_items ring.new ≡ []) }
    ensures succeeds { 0 < length (known_items ring.old) → IsSome result }
{
    if ring.cached_slots() > 0 {
        return Some(ring.pop_known());
    }
    ring.pop().ok()
}
