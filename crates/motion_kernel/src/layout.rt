// The configuration that a kernel was opened with, in which group each axis is, and which instances
// find something at a cycle's end.

ghost use Rattle.std.specs.Prelude.{◌≡◌, ◌<◌, ◌≤◌, ℕ, IfOk, IfSome, length};
ghost use Rattle.motion_history.specs.Setup.{IsSetup};
ghost use Rattle.std.specs.List.{AllByRecursion};
ghost use Rattle.motion_kernel.specs.cycles.Polled.{polled_of};
ghost use Rattle.motion_kernel.specs.members.Laid.{AreMemberships};
ghost use Rattle.motion_kernel.specs.members.Members.{member_at, members_at, membership_of};

use crate::memberships::{Membership, membership_of};
use crate::polled::polled_in;
use motion_history::{BlockDef, CamTable, Config, configurations_are_sound};
use std::alloc::{AllocError, Global};
use std::marker::Model;

/// A configuration with the group of each axis, and the instances that find something at a cycle's
/// end. Contracts see it as the configuration's `Setup`.
#[derive(Drop)]
pub struct Layout {
    config: Config,
    memberships: Vec<Option<Membership>>,
    polled: Vec<u16>,
}

impl Model for Layout {
    ghost use Rattle.motion_history.specs.Setup.{Setup};

    ghost Value = { Setup };

    ghost use Rattle.motion_kernel.specs.members.Laid.{IsLaid};

    ghost view = { λ l. l.config };

    ghost invariant = { λ l. IsLaid l.config l.memberships.items l.polled.items };
}

// Where each axis of a configuration stands in its group.
fn memberships_in(alloc: Global, config: &Config) -> Result<Vec<Option<Membership>>, AllocError>
    ensures { IfOk result (λ v. AreMemberships config.now (length config.now.axes) v.items) }
{
    let mut memberships = Vec::new(alloc);
    for axis in 0..config.axes().len() {
        memberships.push(membership_of(axis as u8, config.groups()))?;
    }
    Ok(memberships)
}

/// The axes of a group by its number, in its order.
pub fn members_in(config: &Config, group: u8) -> &[u8]
    requires setup { IsSetup config.now }
    requires there { group < length config.now.groups }
    ensures members { result.now ≡ members_at config.now group }
    ensures few { length result.now ≤ 6 }
    ensures there { (place : ℕ) → place < length result.now →
        member_at result.now place < length config.now.axes }
{
    // laws
    configurations_are_sound();
    config.groups()[group as usize].members()
}

impl Layout {
    /// The layout of a configuration.
    pub fn open(alloc: Global, config: Config) -> Result<Layout, AllocError>
        ensures { IfOk result (λ l. l ≡ config) }
    {
        let memberships = memberships_in(alloc, &config)?;
        let polled = polled_in(alloc, &config)?;
        Ok(Layout {
            config,
            memberships,
            polled,
        })
    }

    /// The configuration.
    pub fn config(&self) -> &Config
        ensures config { result.now ≡ self.now }
        ensures setup { IsSetup self.now }
    {
        &self.config
    }

    // Where an axis stands in its group, as it was found.
    fn found(&self, axis: u8) -> Option<Membership>
        requires { axis < length self.now.axes }
        ensures { result ≡ membership_of self.now axis }
    {
        self.memberships[axis as usize]
    }

    /// Where an axis stands in its group, if it is in one.
    #[tactic(auto, using(crate::proofs::members::Laid::group_there))]
    pub fn membership(&self, axis: u8) -> Option<Membership>
        requires { axis < length self.now.axes }
        ensures at { result ≡ membership_of self.now axis }
        ensures there { IfSome result (λ at. at.group < length self.now.groups) }
    {
        self.found(axis)
    }

    /// The instances that find something at a cycle's end.
    #[tactic(auto, using(crate::proofs::cycles::Polled::all_polled_there))]
    pub fn polled(&self) -> &[u16]
        ensures polled { result.now ≡ polled_of self.now }
        ensures there { AllByRecursion (λ (k : ℕ). k < length self.now.blocks) result.now }
    {
        self.polled.as_slice()
    }

    /// The axes of a group, in its order.
    pub fn members_of(&self, group: u8) -> &[u8]
        requires { group < length self.now.groups }
        ensures members { result.now ≡ members_at self.now group }
        ensures few { length result.now ≤ 6 }
        ensures there { (place : ℕ) → place < length result.now →
            member_at result.now place < length self.now.axes }
    {
        members_in(&self.config, group)
    }
}
