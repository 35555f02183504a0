// The numbers that turns answer, in one thread.

ghost use Rattle.std.specs.Prelude.{◌≡◌};
ghost use Rattle.kernel_turn.specs.Turns.{IsSamePermit};

use crate::tests::turns::machine::{call, cycle, end, opened};
use kernel_turn::{Kernel, KernelTurn, Permit, Turn};
use motion_history::Config;
use std::alloc::Global;
use std::process::Abort;
use std::sync::Wait;
use std::test::Fail;

// What a turn is to make.
#[derive(Clone, Copy)]
enum Event {
    Call { instance: u16, after: u32 },
    Cycle,
    End { task: u8 },
}

// An event of the opening pass or of the other one, and what its turn answers.
#[derive(Clone, Copy)]
struct Case {
    opening: bool,
    event: Event,
    told: Turn<u8>,
}

const fn expect(opening: bool, event: Event, told: Turn<u8>) -> Case {
    Case {
        opening,
        event,
        told,
    }
}

const fn made(ticket: u64, cycles: u32, answer: u8) -> Turn<u8> {
    Turn::Made {
        ticket,
        cycles,
        answer,
    }
}

// A turn whose answer isn't looked at.
fn without_answer<T: Copy>(turn: Turn<T>) -> Turn<u8> {
    match turn {
        Turn::Made { ticket, cycles, .. } => made(ticket, cycles, 0),
        Turn::Full { entries, cycles } => Turn::Full { entries, cycles },
        Turn::Early { quiet, cycles } => Turn::Early { quiet, cycles },
    }
}

// Makes an event in its turn.
fn play<R: Wait + Abort>(
    rt: &R,
    turns: &KernelTurn,
    config: &Config,
    permit: &mut Permit,
    event: Event,
) -> Turn<u8>
    requires own { permit.old.table ≡ turns.now }
    requires config { permit.old.config ≡ config.now }
    ensures same { IsSamePermit permit.old permit.new }
{
    match event {
        Event::Call { instance, after } => {
            without_answer(call(rt, turns, config, permit, instance, after))
        }
        Event::Cycle => cycle(rt, turns, config, permit),
        Event::End { task } => without_answer(end(rt, turns, config, permit, task)),
    }
}

// Plays the events of two passes.
fn play_each<R: Wait + Abort>(
    rt: &R,
    turns: &KernelTurn,
    config: &Config,
    first: &mut Permit,
    second: &mut Permit,
    cases: &[Case],
)
    requires first { (first.old.table ≡ turns.now) × (first.old.config ≡ config.now) }
    requires second { (second.old.table ≡ turns.now) × (second.old.config ≡ config.now) }
    ensures first { IsSamePermit first.old first.new }
    ensures second { IsSamePermit second.old second.new }
{
    for case in cases {
        let told = if case.opening {
            play(rt, turns, config, first, case.event)
        } else {
            play(rt, turns, config, second, case.event)
        };
        assert_eq!(rt; told, case.told);
    }
}

// The kernel after the events of two passes on a machine with this many tasks and two cycles, and
// then a stop.
fn play_all<R: Wait + Abort>(
    rt: &R,
    alloc: Global,
    tasks: u8,
    cases: &[Case],
) -> Result<Kernel, Fail> {
    let (config, turns, mut first) = opened(alloc, 2, 50, tasks)?;
    let mut second = turns.split(&mut first);
    play_each(rt, &turns, &config, &mut first, &mut second, cases);
    turns.turn_stop(rt, &mut second);
    turns.join(&mut first, second);
    Ok(turns.close(rt, first))
}

#[test]
fn a_turn_that_comes_too_early_is_early(rt: HostRuntime) -> Result<(), Fail> {
    let call = |after: u32| Event::Call { instance: 0, after };
    let early = Turn::Early {
        quiet: 1,
        cycles: 0,
    };
    let cases = [
        expect(true, Event::Cycle, early),
        expect(true, call(1), early),
        expect(true, call(0), made(0, 0, 0)),
        expect(false, Event::Cycle, made(1, 1, 1)),
        expect(true, call(1), made(2, 1, 0)),
    ];
    let kernel = play_all(&rt, rt.alloc(), 1, &cases)?;
    assert_eq!(rt; kernel.history().entries(), 3);
    Ok(())
}

#[test]
fn mixes_the_turns_of_two_passes(rt: HostRuntime) -> Result<(), Fail> {
    let call = |instance: u16, after: u32| Event::Call { instance, after };
    let end = |task: u8| Event::End { task };
    let quiet = Turn::Early {
        quiet: 1,
        cycles: 0,
    };
    let over = Turn::Full {
        entries: 7,
        cycles: 2,
    };
    let cases = [
        expect(false, call(1, 0), made(0, 0, 0)),
        expect(true, Event::Cycle, quiet),
        expect(true, call(0, 0), made(1, 0, 0)),
        expect(false, Event::Cycle, made(2, 1, 2)),
        expect(true, end(0), made(3, 1, 0)),
        expect(false, call(1, 1), made(4, 1, 0)),
        expect(true, Event::Cycle, made(5, 2, 1)),
        expect(false, end(1), made(6, 2, 0)),
        expect(true, Event::Cycle, over),
    ];
    let kernel = play_all(&rt, rt.alloc(), 2, &cases)?;
    assert_eq!(rt; (kernel.history().entries(), kernel.room_left()), (7, 0));
    assert_eq!(rt; (kernel.live_tasks(), kernel.cycles_left()), (0, 0));
    Ok(())
}

#[test]
fn makes_nothing_after_a_stop(rt: HostRuntime) -> Result<(), Fail> {
    let (config, turns, mut permit) = opened(rt.alloc(), 2, 50, 1)?;
    turns.turn_stop(&rt, &mut permit);
    let full = Turn::Full {
        entries: 0,
        cycles: 0,
    };
    assert_eq!(rt; end(&rt, &turns, &config, &mut permit, 0), full);
    Ok(())
}
