// Turns in two threads: each entry has its own ticket.

ghost use Rattle.std.specs.Prelude.{◌≡◌};
ghost use Rattle.kernel_turn.specs.Turns.{IsSamePermit};

use crate::tests::turns::machine::{call, opened};
use kernel_turn::{KernelTurn, Permit, Turn};
use motion_history::Config;
use std::process::Abort;
use std::sync::Wait;
use std::test::Fail;
use std::thread;

const CALLS: usize = 100;

// A pass after its calls, with the tickets of those that were made.
#[derive(Drop)]
struct Called {
    permit: Permit,
    tickets: [Option<u64>; CALLS],
}

// Makes the calls of one task.
fn call_all<R: Wait + Abort>(
    rt: &R,
    turns: &KernelTurn,
    config: &Config,
    mut permit: Permit,
    instance: u16,
) -> Called
    requires own { permit.table ≡ turns.now }
    requires config { permit.config ≡ config.now }
    ensures same { IsSamePermit permit result.permit }
{
    let mut tickets = [None; CALLS];
    for place in 0..CALLS {
        tickets[place] = match call(rt, turns, config, &mut permit, instance, 0) {
            Turn::Made { ticket, .. } => Some(ticket),
            Turn::Full { entries, .. } => {
                assert_eq!(rt; entries, u64::from(config.entries()));
                None
            }
            Turn::Early { .. } => rt.abort(),
        };
    }
    Called { permit, tickets }
}

// Marks the tickets, each of which must be new, and counts them.
fn mark(rt: &impl Abort, tickets: &[Option<u64>], marks: &mut [bool]) -> usize {
    let mut count = 0usize;
    for ticket in tickets {
        let Some(ticket) = *ticket else {
            continue;
        };
        assert!(rt; ticket < marks.len() as u64);
        assert!(rt; !marks[ticket as usize]);
        marks[ticket as usize] = true;
        count = count.wrapping_add(1);
    }
    count
}

// The tickets of both are all below the number of entries, each once.
fn expect_all(rt: &impl Abort, one: &[Option<u64>], two: &[Option<u64>], entries: usize) {
    let mut marks = [false; 2 * CALLS];
    let made = mark(rt, one, &mut marks).wrapping_add(mark(rt, two, &mut marks));
    assert_eq!(rt; made, entries);
    assert!(rt; entries <= marks.len());
    for place in 0..entries {
        assert!(rt; marks[place], "ticket {place}");
    }
}

#[test]
fn two_threads_have_each_ticket_once(rt: HostRuntime) -> Result<(), Fail> {
    for (room, entries) in [(250, 200), (150, 150)] {
        let (config, turns, mut first) = opened(rt.alloc(), 20, room, 2)?;
        let second = turns.split(&mut first);
        let host = &rt;
        let shared = &turns;
        let machine = &config;
        let (one, two) = thread::join(
            &rt,
            move || -> Called
                requires { (first.table ≡ shared.now) × (first.config ≡ machine.now) }
                ensures { IsSamePermit first result.permit }
            { call_all(host, shared, machine, first, 0) },
            move || -> Called
                requires { (second.table ≡ shared.now) × (second.config ≡ machine.now) }
                ensures { IsSamePermit second result.permit }
            { call_all(host, shared, machine, second, 1) },
        );
        expect_all(&rt, &one.tickets, &two.tickets, entries);
        let mut permit = one.permit;
        turns.join(&mut permit, two.permit);
        let kernel = turns.close(&rt, permit);
        assert_eq!(rt; kernel.history().entries(), entries as u64);
    }
    Ok(())
}
