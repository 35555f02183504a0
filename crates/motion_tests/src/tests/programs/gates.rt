// Two tasks of which one is held until the other had its turn: they do run side by side.

use super::{MACHINE, TWO_TASKS, files_of, words_of};
use job_ends::Status;
use motion_cli::{PlantJob, top};
use outside::{Gate, HoldGate, Host, MemorySink, Spawner};
use std::alloc::Global;
use std::sync::Wait;
use std::test::Fail;

// How the run of two tasks ends that pass this gate.
fn gated<H: Host + Wait + Sync>(rt: &H, alloc: Global, gate: &HoldGate) -> Result<Status, Fail> {
    let words = words_of(alloc, &["run", "machine", "program"])?;
    let mut files = files_of(alloc, &[])?;
    let mut out = MemorySink::new(alloc, &[], u32::MAX)?;
    let mut spawner: Spawner<H, PlantJob<HoldGate>> = Spawner::new(*rt, alloc);
    Ok(top(rt, alloc, &words, &mut files, &mut out, &mut spawner, gate))
}

#[test]
fn either_task_may_come_first(rt: HostRuntime) -> Result<(), Fail> {
    for (held, until) in [(0, 1), (1, 0)] {
        let gate = HoldGate::new(rt.alloc(), held, until, 1_000_000)?;
        let status = gated(&rt, rt.alloc(), &gate)?;
        assert_eq!(rt; status, Status::Ok, "task {held} after task {until}");
        assert!(rt; !gate.gave_up(), "task {held} after task {until}");
    }
    Ok(())
}

// A gate that holds a task for one that never comes gives up: so each turn does pass the gate.
#[test]
fn a_task_that_waits_for_nobody_gives_up(rt: HostRuntime) -> Result<(), Fail> {
    for held in [0, 1] {
        let gate = HoldGate::new(rt.alloc(), held, 9, 10)?;
        let status = gated(&rt, rt.alloc(), &gate)?;
        assert_eq!(rt; status, Status::Ok, "task {held}");
        assert!(rt; gate.gave_up(), "task {held}");
    }
    Ok(())
}
