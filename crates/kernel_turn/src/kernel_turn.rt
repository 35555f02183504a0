// A kernel that threads take in turns, by tickets.

ghost use Rattle.std.specs.Prelude.{◌≡◌, ◌<◌, ◌∷◌, [], IfOk, IsSomeAnd, length, slice_get, Some, true, false};
ghost use Rattle.motion_history.specs.Calls.{IsCall};
ghost use Rattle.motion_kernel.specs.KernelState.{KernelState};
ghost use Rattle.kernel_turn.specs.Turns.{CallAnswered, CycleAnswered, EndAnswered, FullOfEither, FullOfEntries, IsClosed, IsFound, IsJoined, IsLawful, IsSamePermit, MadeUnstopped, opening_permit, permit_after_split, permit_after_stop, split_permit};

use crate::events::{try_call, try_cycle, try_end};
use crate::housed::Housed;
use crate::permit::Permit;
use crate::rule::{TurnRule, View};
use crate::steps::{join_seat, pass_on, split_seat, stop_on, take};
use crate::turn::Turn;
use atomic_table::Table;
use crossbeam_utils::CachePadded;
use motion_history::Config;
use motion_kernel::{DriveIn, DriveOut, Inputs, Kernel, Outputs};
use motion_numbers::OutOfMemory;
use std::alloc::Global;
use std::marker::Model;
use std::snapshot::Snapshot;
use std::sync::Wait;

/// A kernel that threads take in turns. Contracts see it as its identity.
#[derive(Drop)]
pub struct KernelTurn {
    table: CachePadded<Table<Option<Housed>, View, Snapshot<Config>, TurnRule, Global>>,
}

impl Model for KernelTurn {
    ghost use Rattle.atomic_table.specs.Seated.{TableId};

    ghost Value = { TableId };

    ghost use Rattle.kernel_turn.specs.Standing.{IsSized, table_of};

    ghost view = { table_of };

    ghost invariant = { IsSized };
}

impl KernelTurn {
    /// Opens the turns on a new kernel, and gives the opening permit.
    pub fn open(alloc: Global, kernel: Kernel) -> Result<(KernelTurn, Permit), OutOfMemory>
        requires new { (kernel.history ≡ []) × (kernel.stopped ≡ false) }
        ensures opening { IfOk result (λ r. r.1 ≡ opening_permit r.0 kernel.config) }
    {
        let config = Snapshot::of(kernel.config());
        let slots = place_of(alloc, kernel)?;
        match Table::new(alloc, &[0, 0], slots, &config) {
            Ok((table, seat)) => {
                let table = CachePadded::new(table);
                Ok((KernelTurn { table }, Permit { seat }))
            }
            Err(_) => Err(OutOfMemory),
        }
    }

    /// Splits a new permit from the opening permit.
    pub fn split(&self, permit: &mut Permit) -> Permit
        requires own { permit.old.table ≡ self.now }
        requires opening { permit.old.opening ≡ true }
        requires few { permit.old.out < 1000 }
        ensures permit { permit.new ≡ permit_after_split permit.old }
        ensures given { result ≡ split_permit permit.old }
    {
        let seat = split_seat(&self.table.shared, &mut permit.seat);
        Permit { seat }
    }

    /// Joins a permit into the opening permit.
    pub fn join(&self, permit: &mut Permit, other: Permit)
        requires own { permit.old.table ≡ self.now }
        requires opening { permit.old.opening ≡ true }
        requires other { other.table ≡ self.now }
        ensures joined { IsJoined permit.old other permit.new }
    {
        let Permit { seat } = other;
        join_seat(&self.table.shared, &mut permit.seat, seat);
    }

    /// Calls a block where there is room and the history has at least this many cycles.
    pub fn turn_call<R: Wait>(
        &self,
        rt: &R,
        permit: &mut Permit,
        task: u8,
        after: u32,
        instance: u16,
        inputs: &Inputs,
    ) -> Turn<Outputs>
        requires own { permit.old.table ≡ self.now }
        requires task { IsSomeAnd (slice_get permit.old.config.blocks instance) (λ b. b.task ≡ task) }
        requires call { IsCall permit.old.config instance inputs.now }
        ensures answer { CallAnswered after instance inputs.now permit.old permit.new result }
        ensures full { FullOfEntries permit.new result }
        ensures unstopped { MadeUnstopped permit.old result }
        ensures lawful { IsLawful permit.new.config permit.new.seen }
        ensures same { IsSamePermit permit.old permit.new }
    {
        let top = &self.table.shared;
        let mut kernel = take(rt, top, &mut permit.seat);
        let turn = try_call(&mut kernel.kernel, task, after, instance, inputs);
        pass_on(top, &mut permit.seat, kernel);
        turn
    }

    /// Goes through a cycle where there is room, no task is quiet and a cycle is left, and answers
    /// how many tasks live.
    pub fn turn_cycle<R: Wait>(
        &self,
        rt: &R,
        permit: &mut Permit,
        ins: &[DriveIn],
        outs: &mut [DriveOut],
    ) -> Turn<u8>
        requires own { permit.old.table ≡ self.now }
        requires ins { length ins.now ≡ length permit.old.config.axes }
        requires outs { length outs.old ≡ length permit.old.config.axes }
        ensures answer { CycleAnswered ins.now outs.old outs.new permit.old permit.new result }
        ensures full { FullOfEither permit.new result }
        ensures unstopped { MadeUnstopped permit.old result }
        ensures lawful { IsLawful permit.new.config permit.new.seen }
        ensures same { IsSamePermit permit.old permit.new }
    {
        let top = &self.table.shared;
        let mut kernel = take(rt, top, &mut permit.seat);
        let turn = try_cycle(&mut kernel.kernel, ins, outs);
        pass_on(top, &mut permit.seat, kernel);
        turn
    }

    /// Ends a task where there is room.
    pub fn turn_end<R: Wait>(&self, rt: &R, permit: &mut Permit, task: u8) -> Turn<()>
        requires own { permit.old.table ≡ self.now }
        requires task { task < length permit.old.config.tasks }
        ensures answer { EndAnswered task permit.old permit.new result }
        ensures full { FullOfEntries permit.new result }
        ensures unstopped { MadeUnstopped permit.old result }
        ensures lawful { IsLawful permit.new.config permit.new.seen }
        ensures same { IsSamePermit permit.old permit.new }
    {
        let top = &self.table.shared;
        let mut kernel = take(rt, top, &mut permit.seat);
        let turn = try_end(&mut kernel.kernel, task);
        pass_on(top, &mut permit.seat, kernel);
        turn
    }

    /// Stops the kernel: no turn makes an entry after it. The permit has then made a stop, and so
    /// has one that it is joined into: a later turn of these is not `Made`.
    pub fn turn_stop<R: Wait>(&self, rt: &R, permit: &mut Permit)
        requires own { permit.old.table ≡ self.now }
        ensures stopped { (f : KernelState) × IsFound permit.old f ×
            (permit.new ≡ permit_after_stop permit.old f) }
        ensures lawful { IsLawful permit.new.config permit.new.seen }
        ensures same { IsSamePermit permit.old permit.new }
    {
        let top = &self.table.shared;
        let mut kernel = take(rt, top, &mut permit.seat);
        kernel.kernel.stop();
        stop_on(top, &mut permit.seat, kernel);
    }

    /// Closes the turns and gives the kernel, once every other permit was joined.
    pub fn close<R: Wait>(&self, rt: &R, permit: Permit) -> Kernel
        requires own { permit.table ≡ self.now }
        requires opening { permit.opening ≡ true }
        requires alone { permit.out ≡ 0 }
        ensures closed { IsClosed permit result }
    {
        let Permit { mut seat } = permit;
        let Housed { kernel } = take(rt, &self.table.shared, &mut seat);
        Box::into_inner(kernel)
    }
}

// The place of the kernel, with the kernel in it.
fn place_of(alloc: Global, kernel: Kernel) -> Result<Vec<Option<Housed>>, OutOfMemory>
    ensures { IfOk result (λ v. v.items ≡ Some kernel ∷ []) }
{
    let mut slots = Vec::with_capacity(alloc, 1)?;
    let Ok(kernel) = Box::new(alloc, kernel) else {
        return Err(OutOfMemory);
    };
    slots.push_reserved(Some(Housed { kernel }));
    Ok(slots)
}
