// Laws of states by their events: each is the contract of a function that does nothing.

ghost use Rattle.state_events.specs.Few.{AreFewAxisEvents, AreFewGroupEvents};
ghost use Rattle.state_events.specs.Laws.{AreAxisEvents, AreGroupEvents};

use kin_core::{braking_steps_are_only_cut, standing_is_kept, taken_steps_keep};
use plc_types::{
    counts_are_read_back, homing_keeps_counts, offsets_are_small, setpoints_have_counts,
};

/// An axis changes its state by its events, one after another, each from a state of its row: by
/// those of a command, a Power and its group's path, and of a cycle; an owner that is taken away
/// changes none.
pub fn axes_change_by_their_events()
    ensures { AreAxisEvents }
{
    taken_steps_keep();
    braking_steps_are_only_cut();
    standing_is_kept();
    setpoints_have_counts();
    homing_keeps_counts();
    counts_are_read_back();
    offsets_are_small();
}

/// A group changes its state by its events, one after another, each from a state of its row: by
/// those of a command, a Power off of a member, a cycle and a GroupReset; an owner that is taken
/// away changes none.
pub fn groups_change_by_their_events()
    ensures { AreGroupEvents }
{}

/// An axis has at most one event in a call, and at most three in a cycle; a group has at most one
/// in a call, by its step and by a GroupReset.
pub fn events_are_few()
    ensures axes { AreFewAxisEvents }
    ensures groups { AreFewGroupEvents }
{}
