// What a group is between two events.

use buffer_modes::PendingReset;
use command_pool::Wanted;
use plc_types::{GroupState, Limits};

/// A group, apart from the path that its axes are on.
#[derive(Clone, Copy)]
pub struct Group {
    /// How many axes it has, 2 to 6.
    pub axes: u8,
    pub state: GroupState,
    /// The number of the error in GroupErrorStop, else 0.
    pub error: u16,
    pub active: Option<Wanted>,
    pub reset: Option<PendingReset>,
    /// The instance that holds GroupStopping.
    pub hold: Option<u16>,
}

/// Where a group is on its path: an axis of its own, in internal units from place 0 on.
#[derive(Clone, Copy, Debug, PartialEq, Eq)]
pub struct Motion {
    /// The limits of the path: from place 0 to its length.
    pub limits: Limits,
    /// The place before the current one.
    pub previous: i64,
    pub place: i64,
}

/// A path with the place on it.
#[derive(Clone, Copy, Drop)]
pub struct Track<P> {
    pub path: P,
    pub motion: Motion,
}

/// A group, and the path that it is on, if it is on one.
#[derive(Clone, Copy, Drop)]
pub struct GroupOnPath<P> {
    pub group: Group,
    pub track: Option<Track<P>>,
}
