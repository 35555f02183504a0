// A standby that follows a kernel, for this many events.

ghost use Rattle.std.specs.Prelude.{◌≡◌, ◌<◌, ◌-◌, IfSome};
ghost use Rattle.hot_standby.specs.Alike.{AreAlike, IsBehindIfAny, IsLike, IsLikeIfAny};
ghost use Rattle.hot_standby.specs.Events.{IsFit, kernel_after};
ghost use Rattle.hot_standby.specs.Primary.{events_left};

use crate::event::FedEvent;
use crate::feed::Feed;
use crate::standby::Standby;
use motion_kernel::Kernel;

/// A standby with its feed, that follows for that many events more.
#[derive(Drop)]
pub struct Follower {
    pub(crate) feed: Feed,
    pub(crate) standby: Standby,
    pub(crate) left: u32,
}

// Feeds an event that the kernel made to its follower, if it has one. After the last event the
// standby's kernel takes the place of the kernel, which is given up.
pub(crate) fn follow(follower: &mut Option<Follower>, kernel: &mut Kernel, event: &FedEvent)
    requires behind { IsBehindIfAny follower.old kernel.old event.now }
    requires some { IfSome follower.old (λ f. 0 < f.left) }
    ensures same { kernel.new ≡ kernel.old }
    ensures like { IsLikeIfAny follower.new kernel.new }
    ensures left { events_left follower.new ≡ events_left follower.old - 1 }
    ensures some { IfSome follower.new (λ f. 0 < f.left) }
{
    let Some(present) = follower else {
        return;
    };
    pass(&mut present.feed, &mut present.standby, event);
    if present.left > 1 {
        present.left -= 1;
    } else if let Some(last) = follower.take() {
        switch_over(last, kernel);
    }
}

// The standby's kernel takes the place of the kernel, which is given up.
pub(crate) fn switch_over(follower: Follower, kernel: &mut Kernel)
    requires { IsLike follower kernel.old }
    ensures { kernel.new ≡ kernel.old }
{
    let Follower { feed, standby, .. } = follower;
    match standby.promote(feed) {
        Ok(second) => *kernel = second,
        Err(_) => unreachable!(),
    }
}

// Passes an event that fits through the ring: the standby's kernel is then the one after it.
fn pass(feed: &mut Feed, standby: &mut Standby, event: &FedEvent)
    requires fit { IsFit standby.old.kernel event.now }
    requires alike { AreAlike standby.old.kernel feed.old standby.old }
    ensures { AreAlike (kernel_after standby.old.kernel event.now) feed.new standby.new }
{
    standby.beside(feed);
    let _ = feed.push(*event);
    standby.beside(feed);
    let _ = standby.take();
}
