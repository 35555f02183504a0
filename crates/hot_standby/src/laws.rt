// Laws of a standby: each is the contract of a function that does nothing.

ghost use Rattle.std.specs.Prelude.{◌≡◌, [], false};
ghost use mathlib.Core.List.{IsPrefix};
ghost use Rattle.hot_standby.specs.Beside.{AreBeside};
ghost use Rattle.hot_standby.specs.Followers.{IsLegalFollower};
ghost use Rattle.hot_standby.specs.Sides.{FeedSide, StandbySide};

use crate::feed::Feed;
use crate::standby::Standby;

/// The events that a standby took are the first that were pushed, in their order and each once;
/// all of them where nothing is in the ring.
pub fn taken_events_are_the_first_pushed()
    ensures first { (feed : FeedSide) (standby : StandbySide) → AreBeside feed standby →
        IsPrefix standby.taken feed.sent }
    ensures all { (feed : FeedSide) (standby : StandbySide) → AreBeside feed standby →
        standby.waiting ≡ [] → standby.taken ≡ feed.sent }
{}

/// As long as no stranger came, a standby's events are the first that were pushed, each fitted,
/// and its kernel is the opened one after them, with the legal history that they make.
pub fn followers_are_legal(feed: &Feed, standby: &Standby)
    ensures { AreBeside feed.now standby.now → standby.now.met_stranger ≡ false →
        IsLegalFollower feed.now standby.now }
{
    taken_events_are_the_first_pushed();
    // law: a kernel's history is legal
    let _ = standby.kernel().history();
}
