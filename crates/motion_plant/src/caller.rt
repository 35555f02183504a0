// Who makes the calls of a task: a permit of the kernel's turns.

ghost use Rattle.std.specs.Prelude.{◌≡◌, ◌≤◌, ◌+◌, ◌++◌, ◌∷◌, [], IfNone, IfSome, IsSomeAnd, List, false, slice_get, true};
ghost use Rattle.motion_history.specs.Calls.{IsCall};
ghost use Rattle.motion_history.specs.Entries.{Entry, call, cycles_of};
ghost use Rattle.motion_history.specs.declared.sizes.TheConstants.{MOST_CYCLES};
ghost use Rattle.motion_plant.specs.Calls.{AreCalls, IsCut, fixed_part, logged_calls};
ghost use Rattle.motion_plant.specs.Makers.{IsBy, Owns, own_entries};
ghost use Rattle.task_run.specs.Callers.{cycles_from};

use crossbeam_utils::Backoff;
use kernel_turn::{KernelTurn, Permit, Turn};
use outside::Gate;
use plc_types::{Inputs, Outputs};
use std::sync::Wait;
use task_run::Caller;

/// Where a task makes its turns: the kernel's turns, the gate of each, and the task's number.
#[derive(Drop)]
pub struct TaskTurns<'a, G: Gate + Drop> {
    pub turn: &'a KernelTurn,
    pub gate: &'a G,
    pub task: u8,
}

/// A call that is to be made, once this many cycles were made.
#[derive(Drop)]
pub struct NextCall<'a> {
    pub after: u32,
    pub instance: u16,
    pub inputs: &'a Inputs,
}

/// Makes the calls of a task by a permit of a kernel's turns, each turn through a gate.
#[derive(Drop)]
pub struct TurnCaller<'a, G: Gate + Drop> {
    pub turns: &'a TaskTurns<'a, G>,
    pub permit: Permit,
    pub asks_rest: bool,
    /// How many cycles came before the last call.
    pub last: u32,
    pub was_refused: bool,
    pub ghost own: { permit.table ≡ turns.now.turn.now },
    pub ghost owns: { Owns (IsBy permit.config turns.now.task) permit.own permit.seen },
    pub ghost calls: { AreCalls (own_entries permit.own permit.seen) },
    pub ghost last_is: { last ≡
        cycles_from 0 (logged_calls (own_entries permit.own permit.seen)) },
    pub ghost behind: { last ≤ cycles_of permit.seen },
    pub ghost few: { last ≤ permit.config.cycles },
    pub ghost small: { permit.config.cycles ≤ MOST_CYCLES },
    pub ghost cut: { was_refused ≡ true → IsCut permit },
}

impl<'a, G: Gate + Drop> Caller for TurnCaller<'a, G> {
    type Fixed = Permit;

    ghost use Rattle.motion_plant.specs.Calls.{fixed_part, logged_calls};
    ghost use Rattle.motion_plant.specs.Makers.{own_entries};

    ghost fixed = { λ c. fixed_part c.permit };

    ghost told = { λ c. record {
      config = c.permit.config;
      task = c.turns.now.task;
      calls = logged_calls (own_entries c.permit.own c.permit.seen);
      rests = c.asks_rest;
      refused = c.was_refused;
    } };

    fn call<R: Wait>(&mut self, rt: &R, instance: u16, inputs: &Inputs) -> Option<Outputs> {
        let next = NextCall {
            after: first_cycle(self.asks_rest, self.last),
            instance,
            inputs,
        };
        match call_until(rt, self.turns, &mut self.permit, &next) {
            Some((reply, cycles)) => {
                self.last = cycles;
                self.asks_rest = false;
                Some(reply)
            }
            None => {
                self.was_refused = true;
                None
            }
        }
    }

    fn rest(&mut self) {
        self.asks_rest = true;
    }
}

// From which cycle on the next call may come: after a rest a later one than the last, else any.
fn first_cycle(rests: bool, last: u32) -> u32
    requires few { last ≤ MOST_CYCLES }
    ensures value { rests ≡ true → result ≡ last + 1 }
    ensures at_once { rests ≡ false → result ≡ 0 }
{
    if rests { last + 1 } else { 0 }
}

// Repeats a call until it is made or refused.
fn call_until<R: Wait, G: Gate + Drop>(
    rt: &R,
    turns: &TaskTurns<G>,
    permit: &mut Permit,
    next: &NextCall,
) -> Option<(Outputs, u32)>
    requires own { permit.old.table ≡ turns.now.turn.now }
    requires task { IsSomeAnd (slice_get permit.old.config.blocks next.now.instance)
        (λ b. b.task ≡ turns.now.task) }
    requires call { IsCall permit.old.config next.now.instance next.now.inputs.now }
    requires owns { Owns (IsBy permit.old.config turns.now.task) permit.old.own permit.old.seen }
    ensures fixed { fixed_part permit.new ≡ fixed_part permit.old }
    ensures owns { Owns (IsBy permit.old.config turns.now.task) permit.new.own permit.new.seen }
    ensures longer { cycles_of permit.old.seen ≤ cycles_of permit.new.seen }
    ensures some { IfSome result (λ r. (before : List Entry) ×
        (own_entries permit.new.own permit.new.seen ≡ own_entries permit.old.own permit.old.seen ++
        record { before = before; entry = call next.now.instance next.now.inputs.now r.0 } ∷ []) ×
        (r.1 ≡ cycles_of before) × (next.now.after ≤ r.1) × (cycles_of permit.old.seen ≤ r.1) ×
        (r.1 ≤ cycles_of permit.new.seen) × (r.1 ≤ permit.old.config.cycles)) }
    ensures none { IfNone result
        (own_entries permit.new.own permit.new.seen ≡ own_entries permit.old.own permit.old.seen) }
    ensures cut { IfNone result (IsCut permit.new) }
{
    let backoff = Backoff::new();
    for _ in rt.forever() {
        turns.gate.before(turns.task);
        let answer = turns.turn.turn_call(
            rt,
            permit,
            turns.task,
            next.after,
            next.instance,
            next.inputs,
        );
        turns.gate.after(turns.task);
        match answer {
            Turn::Made { cycles, answer, .. } => return Some((answer, cycles)),
            Turn::Full { .. } => return None,
            Turn::Early { .. } => backoff.snooze(),
        }
    }
    unreachable!()
}
