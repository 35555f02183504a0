// A gate that holds a task's first turn until another task had one.

ghost use Rattle.std.specs.Prelude.{IfOk};

use crate::{Gate, OutOfMemory};
use crossbeam_utils::Backoff;
use std::alloc::Global;
use std::sync::Arc;
use std::sync::atomic::{AtomicBool, Ordering};

// What the twins of a gate know together: whether the awaited turn was answered, and whether the
// looks ran out.
#[derive(Drop)]
struct Held {
    answered: AtomicBool,
    gave_up: AtomicBool,
}

/// Holds the first turn of one task until the first turn of another was answered, for this many
/// looks at most.
#[derive(Drop)]
pub struct HoldGate {
    held: u8,
    until: u8,
    looks: u64,
    state: Arc<Held>,
}

impl HoldGate {
    ghost use Rattle.outside.specs.Gates.{Holds};

    /// Holds the first turn of the task `held` until the first of `until` was answered, for at
    /// most this many looks.
    pub fn new(alloc: Global, held: u8, until: u8, looks: u64) -> Result<HoldGate, OutOfMemory>
        ensures { IfOk result (λ gate. Holds gate held until looks) }
    {
        let state = Held {
            answered: AtomicBool::new(false),
            gave_up: AtomicBool::new(false),
        };
        let Ok(state) = Arc::new(alloc, state) else {
            return Err(OutOfMemory);
        };
        Ok(HoldGate {
            held,
            until,
            looks,
            state,
        })
    }

    /// Whether the looks ran out. No clause speaks of the answer.
    pub fn gave_up(&self) -> bool {
        self.state.gave_up.load(Ordering::SeqCst)
    }

    // Looks until the awaited turn was answered, and gives up where the looks run out.
    fn hold(&self) {
        let backoff = Backoff::new();
        for _ in 0..self.looks {
            if self.state.answered.load(Ordering::SeqCst) {
                return;
            }
            backoff.snooze();
        }
        self.state.gave_up.store(true, Ordering::SeqCst);
    }
}

impl Gate for HoldGate {
    ghost use Rattle.outside.specs.Gates.{Holds};

    fn before(&self, task: u8) {
        if task == self.held && !self.gave_up() {
            self.hold();
        }
    }

    fn after(&self, task: u8) {
        if task == self.until {
            self.state.answered.store(true, Ordering::SeqCst);
        }
    }

    fn twin(&self) -> Result<HoldGate, OutOfMemory>
        ensures { IfOk result (λ gate. Holds gate self.now.held self.now.until self.now.looks) }
    {
        Ok(HoldGate {
            held: self.held,
            until: self.until,
            looks: self.looks,
            state: Arc::try_clone(&self.state)?,
        })
    }
}
