// One instance of a function block, as its calls and its command change it.

ghost use Rattle.std.specs.Prelude.{◌≡◌};
ghost use Rattle.fb_outputs.specs.Steps as spec;
ghost use Rattle.fb_outputs.specs.Steps.{opened, edge_of, called, started, finished, with_reached, outputs_of, shown};
ghost use Rattle.fb_outputs.specs.Replies.{IsReply, may_hold};

use crate::reply::outputs_now;
use command_pool::Finish;
use plc_types::{BlockKind, Outputs};
use std::marker::Model;

/// How Execute changed from the last call to this one.
#[derive(Clone, Copy, Debug, PartialEq, Eq)]
pub enum Edge {
    Rising,
    High,
    Falling,
    Low,
}

/// How far an instance's command is.
#[derive(Clone, Copy, Debug, PartialEq, Eq)]
pub enum Progress {
    /// It has no command and no result.
    Idle,
    /// Its command waits after others, or is a pending reset.
    Waiting,
    /// Its command is the active one.
    Active,
    /// Its command ended so, and a call may have shown it.
    Ended { finish: Finish, shown: bool },
}

/// An instance of a function block. What it shows follows from its Execute and from what becomes of
/// its command.
#[derive(Drop)]
pub struct Instance {
    kind: BlockKind,
    execute: bool,
    reached: bool,
    progress: Progress,
}

impl Model for Instance {
    ghost use Rattle.fb_outputs.specs.InstanceState.{InstanceState};

    ghost Value = { InstanceState };

    ghost view = { λ i.
        record { kind = i.kind; execute = i.execute; reached = i.reached; progress = i.progress } };
}

impl Instance {
    /// An instance that was not called yet.
    pub fn new(kind: BlockKind) -> Instance
        ensures { result ≡ opened kind }
    {
        Instance {
            kind,
            execute: false,
            reached: false,
            progress: Progress::Idle,
        }
    }

    /// An instance of which this is known.
    pub fn resume(kind: BlockKind, execute: bool, reached: bool, progress: Progress) -> Instance
        ensures { result ≡ record {
          kind = kind;
          execute = execute;
          reached = reached;
          progress = progress;
        } }
    {
        Instance {
            kind,
            execute,
            reached,
            progress,
        }
    }

    /// Takes a call's Execute, and says how it changed. A rising edge takes the earlier command's
    /// owner away.
    pub fn on_call(&mut self, execute: bool) -> Edge
        ensures edge { result ≡ edge_of self.old.execute execute }
        ensures after { self.new ≡ called self.old execute }
    {
        let edge = edge_between(self.execute, execute);
        self.reached = reached_after(self.kind, edge, self.reached);
        self.progress = progress_after(self.progress, edge);
        self.execute = execute;
        edge
    }

    /// Its command was admitted or took over: it is the active one, or waits.
    pub fn on_start(&mut self, active: bool)
        ensures { self.new ≡ started self.old active }
    {
        self.progress = if active {
            Progress::Active
        } else {
            Progress::Waiting
        };
        self.reached = false;
    }

    /// Its command ended, or its call was refused.
    pub fn on_finish(&mut self, finish: Finish)
        ensures { self.new ≡ finished self.old finish }
    {
        self.progress = Progress::Ended {
            finish,
            shown: false,
        };
    }

    /// Takes what the last cycle found: InVelocity, InGear, InSync, whether a Power's axis was
    /// driven, and of a Stop whether its axis is in Stopping under its hold. Opening counts as a
    /// driven last cycle of a ready axis, so a Power on one takes true before its first call.
    pub fn set_reached(&mut self, reached: bool)
        ensures { self.new ≡ with_reached self.old reached }
    {
        self.reached = reached;
    }

    /// The outputs of a call's reply. A result in it counts as shown from then on.
    pub fn show(&mut self) -> Outputs
        ensures outputs { result ≡ outputs_of self.old }
        ensures after { self.new ≡ shown self.old }
        ensures single { IsReply (may_hold self.old) result }
    {
        let outputs = outputs_now(self.kind, self.execute, self.reached, self.progress);
        if let Progress::Ended { finish, .. } = self.progress {
            self.progress = Progress::Ended {
                finish,
                shown: true,
            };
        }
        outputs
    }

    /// The kind of its block.
    pub fn kind(&self) -> BlockKind
        ensures { result ≡ self.now.kind }
    {
        self.kind
    }

    /// What the last cycle found, as `set_reached` gives.
    pub fn reached(&self) -> bool
        ensures { result ≡ self.now.reached }
    {
        self.reached
    }

    /// How far its command is.
    pub fn progress(&self) -> Progress
        ensures { result ≡ self.now.progress }
    {
        self.progress
    }

    /// The Execute of the last call, false before the first.
    pub fn execute(&self) -> bool
        ensures { result ≡ self.now.execute }
    {
        self.execute
    }
}

// How Execute changed.
fn edge_between(last: bool, execute: bool) -> Edge
    ensures { result ≡ edge_of last execute }
{
    match (last, execute) {
        (false, true) => Edge::Rising,
        (true, true) => Edge::High,
        (true, false) => Edge::Falling,
        (false, false) => Edge::Low,
    }
}

// What an instance still knows of the last cycle.
fn reached_after(kind: BlockKind, edge: Edge, reached: bool) -> bool
    ensures { result ≡ spec.reached_after kind edge reached }
{
    match edge {
        Edge::Rising => is_power(kind) && reached,
        Edge::High | Edge::Falling | Edge::Low => reached,
    }
}

// How far the command is after a call's Execute was taken.
fn progress_after(progress: Progress, edge: Edge) -> Progress
    ensures { result ≡ spec.progress_after edge progress }
{
    match edge {
        Edge::Rising => Progress::Idle,
        Edge::High => progress,
        Edge::Falling | Edge::Low => without_shown(progress),
    }
}

// A result that was shown goes.
fn without_shown(progress: Progress) -> Progress
    ensures { result ≡ spec.without_shown progress }
{
    match progress {
        Progress::Ended { shown: true, .. } => Progress::Idle,
        _ => progress,
    }
}

/// Whether the kind takes Enable at each call.
pub fn is_power(kind: BlockKind) -> bool
    ensures { result ≡ spec.is_power kind }
{
    matches!(kind, BlockKind::Power)
}
