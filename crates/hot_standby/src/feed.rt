// The feed: the first kernel's end of the ring.

ghost use Rattle.std.specs.Prelude.{◌≡◌, ◌<◌, ◌≤◌, ◌+◌, ◌-◌, ◌^◌, [], ◌∷◌, ◌++◌, IfErr, IsOk, OnOk, length, min};

use crate::event::FedEvent;
use rtrb::{Producer, PushError};
use std::marker::Model;

/// How many events were pushed into a feed, at most 2^64 - 1.
#[derive(Clone, Copy, Debug, PartialEq, Eq)]
pub struct FeedLog {
    pub sent: u64,
}

/// The first kernel's end of the ring: it sends events.
#[derive(Drop)]
pub struct Feed {
    pub(crate) ring: Producer<FedEvent>,
    pub(crate) sent: u64,
}

impl Model for Feed {
    ghost use Rattle.hot_standby.specs.Sides.{FeedSide};

    ghost Value = { FeedSide };

    ghost use Rattle.hot_standby.specs.Inside.{feed_side_of, IsFeed};

    ghost view = { feed_side_of };

    ghost invariant = { IsFeed };
}

impl Feed {
    /// Sends an event, or gives it back where no slot is free.
    pub fn push(&mut self, event: FedEvent) -> Result<(), FedEvent>
        ensures sent { OnOk result (self.new ≡ record self.old {
          sent = self.old.sent ++ event ∷ [];
          free = self.new.free;
        }) }
        ensures slots { OnOk result (self.old.free ≤ self.new.free + 1) }
        ensures full { IfErr result (λ back. (back ≡ event) × (self.new ≡ self.old)) }
        ensures succeeds { 0 < self.old.free → IsOk result }
    {
        match self.ring.push(event) {
            Ok(()) => {
                self.sent = self.sent.saturating_add(1);
                Ok(())
            }
            Err(PushError::Full(back)) => Err(back),
        }
    }

    /// How many events were pushed.
    pub fn finish(self) -> FeedLog
        ensures { result.sent ≡ min (length self.sent) (2 ^ 64 - 1) }
    {
        FeedLog { sent: self.sent }
    }
}
