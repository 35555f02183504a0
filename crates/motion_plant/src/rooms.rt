// What a plant keeps of what it has started, and the memory that it takes before any start.

ghost use Rattle.std.specs.Prelude.{◌≡◌, ◌<◌, ◌≤◌, ◌+◌, ◌++◌, ◌∷◌, [], IfOk, vec_capacity, vec_len};

use crate::task_job::TaskJob;
use drive_jobs::DriveLink;
use kernel_turn::{DriveIn, DriveOut, KernelTurn, Permit};
use outside::Gate;
use plc_types::{NO_ANSWER, NO_OUTPUT};
use setpoint_ring::DriveLog;
use std::alloc::{AllocError, Global};
use std::snapshot::Snapshot;
use std::sync::Arc;

/// A kernel that was opened: its turns, and the opening permit.
#[derive(Drop)]
pub struct OpenKernel {
    pub turn: Arc<KernelTurn>,
    pub permit: Permit,
}

/// The jobs of the tasks, as they were started, by their numbers.
pub type Seats<G> = Vec<Snapshot<TaskJob<G>>>;

/// What was started, from the job of this number on: the drives, with the lines to them, and the
/// tasks; and room for the drives' logs.
#[derive(Drop)]
pub struct StartedJobs<G: Gate + Drop> {
    pub base: u32,
    pub lines: Vec<DriveLink>,
    pub seats: Seats<G>,
    pub logs: Vec<DriveLog>,
}

/// Room for an answer and an output of each drive, how many cycles were made, and how many there
/// may be.
#[derive(Drop)]
pub struct CycleRoom {
    pub ins: Vec<DriveIn>,
    pub outs: Vec<DriveOut>,
    pub made: u32,
    pub most: u32,
}

/// Room for this many drives and tasks, of which none was started.
pub fn make_room<G: Gate + Drop>(
    alloc: Global,
    base: u32,
    drives: usize,
    tasks: usize,
) -> Result<StartedJobs<G>, AllocError>
    requires few { (drives ≤ 1000) × (tasks ≤ 1000) }
    ensures base { IfOk result (λ r. r.base ≡ base) }
    ensures lines { IfOk result (λ r. (r.lines.items ≡ []) × (drives ≤ vec_capacity r.lines)) }
    ensures seats { IfOk result (λ r. (r.seats.items ≡ []) × (tasks ≤ vec_capacity r.seats)) }
    ensures logs { IfOk result (λ r. (r.logs.items ≡ []) × (drives ≤ vec_capacity r.logs)) }
{
    let lines = Vec::with_capacity(alloc, drives)?;
    let seats = Vec::with_capacity(alloc, tasks)?;
    let logs = Vec::with_capacity(alloc, drives)?;
    Ok(StartedJobs {
        base,
        lines,
        seats,
        logs,
    })
}

/// Room for the cycles of this many drives, of which none was made.
pub fn make_cycle_room(alloc: Global, drives: usize, most: u32) -> Result<CycleRoom, AllocError>
    requires few { drives ≤ 1000 }
    ensures width { IfOk result (λ r. (vec_len r.ins ≡ drives) × (vec_len r.outs ≡ drives)) }
    ensures none { IfOk result (λ r. (r.made ≡ 0) × (r.most ≡ most)) }
{
    let ins = vec![in alloc; NO_ANSWER; drives]?;
    let outs = vec![in alloc; NO_OUTPUT; drives]?;
    Ok(CycleRoom {
        ins,
        outs,
        made: 0,
        most,
    })
}

/// Puts an item into room that is there.
pub fn push_within<T>(list: &mut Vec<T>, item: T)
    requires { vec_len list.old < vec_capacity list.old }
    ensures items { list.new.items ≡ list.old.items ++ item ∷ [] }
    ensures len { vec_len list.new ≡ vec_len list.old + 1 }
    ensures capacity { vec_capacity list.old ≤ vec_capacity list.new }
{
    match list.push(item) {
        Ok(()) => {}
        Err(_) => unreachable!(),
    }
}
