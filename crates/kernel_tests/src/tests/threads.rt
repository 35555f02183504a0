// Jobs in threads, and gates between them.

ghost use Rattle.std.specs.Prelude.{◌<◌, ⊤, length};

use outside::{Gate, HoldGate, Host, Spawner, StartFault, Worker};
use std::test::Fail;

// Adds one to its number, within 32 bits.
#[derive(Clone, Copy, Drop)]
struct AddsOne {
    number: u32,
}

impl<H> Worker<H> for AddsOne {
    type End = u32;

    ghost ready = { λ _. ⊤ };

    ghost works = { λ _ _. ⊤ };

    fn work(self, _rt: &H) -> u32 {
        self.number.wrapping_add(1)
    }
}

// Starts a job and waits for its end.
fn add_one<H: Host>(spawner: &mut Spawner<H, AddsOne>, number: u32) -> Result<u32, StartFault>
    requires { length spawner.old.jobs < 1000000000 }
{
    let place = spawner.start(AddsOne { number })?;
    Ok(spawner.join(place))
}

#[test]
fn refuses_none_of_two_hundred_but_the_listed(rt: HostRuntime) -> Result<(), Fail> {
    let mut spawner = Spawner::refusing(rt, rt.alloc(), &[5, 9, 64])?;
    for start in 1..=200 {
        let wanted = match start {
            5 | 9 | 64 => Err(StartFault::Refused),
            _ => Ok(start + 1),
        };
        assert!(rt; spawner.started() < 200);
        assert_eq!(rt; add_one(&mut spawner, start), wanted, "start {start}");
    }
    assert_eq!(rt; spawner.started(), 197);
    Ok(())
}

// What is called of a gate that holds task 1 until task 2.
#[derive(Clone, Copy, Debug)]
enum Turn {
    Before(u8),
    After(u8),
}

#[test]
fn holds_for_as_many_looks_as_it_has(rt: HostRuntime) -> Result<(), Fail> {
    let cases: [(u64, &[Turn], bool); 13] = [
        (5, &[], false),
        (5, &[Turn::Before(1)], true),
        (0, &[Turn::Before(1)], true),
        (
            5,
            &[Turn::Before(2), Turn::Before(3), Turn::After(3)],
            false,
        ),
        (5, &[Turn::After(1), Turn::Before(1)], true),
        (
            5,
            &[Turn::After(2), Turn::Before(1), Turn::Before(1)],
            false,
        ),
        (0, &[Turn::Before(1), Turn::After(2)], true),
        (5, &[Turn::Before(2), Turn::Before(1)], true),
        (5, &[Turn::After(3), Turn::Before(1)], true),
        (
            5,
            &[Turn::Before(2), Turn::After(2), Turn::Before(1)],
            false,
        ),
        (5, &[Turn::After(2), Turn::Before(1), Turn::After(1)], false),
        (5, &[Turn::Before(1), Turn::After(2), Turn::Before(1)], true),
        (0, &[Turn::After(2), Turn::Before(1)], true),
    ];
    for (looks, turns, gave_up) in cases {
        let gate = HoldGate::new(rt.alloc(), 1, 2, looks)?;
        let twin = gate.twin()?;
        for turn in turns {
            match *turn {
                Turn::Before(task) => gate.before(task),
                Turn::After(task) => twin.after(task),
            }
        }
        assert_eq!(rt; gate.gave_up(), gave_up, "{looks} looks, {turns:?}");
        assert_eq!(rt; twin.gave_up(), gave_up, "{looks} looks, {turns:?}");
    }
    Ok(())
}
