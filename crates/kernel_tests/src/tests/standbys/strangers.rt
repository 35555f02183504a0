// Each kind of stranger.

ghost use Rattle.std.specs.Prelude.{◌≡◌, ◌≤◌};

use crate::tests::standbys::machine::{Ends, call, cycle, event, expect_move, no_inputs};
use hot_standby::{Fed, FedEvent, Inputs};
use std::test::Fail;

fn strangers() -> [(&'static str, FedEvent); 9] {
    [
        ("instance 7, which is not there", call(0, 7, no_inputs())),
        ("a block of another task", call(0, 1, no_inputs())),
        ("a task that isn't there", call(9, 0, no_inputs())),
        (
            "a velocity of a power",
            call(
                1,
                1,
                Inputs {
                    velocity: 1,
                    ..no_inputs()
                },
            ),
        ),
        (
            "a master that isn't there",
            call(
                0,
                0,
                Inputs {
                    master: 1,
                    ..no_inputs()
                },
            ),
        ),
        ("no answer", cycle(0, 0)),
        ("two answers for one axis", cycle(2, 0)),
        ("more answers than there can be", cycle(17, 0)),
        ("an end of no task", FedEvent::End { task: 2 }),
    ]
}

#[test]
fn a_stranger_changes_nothing(rt: HostRuntime) -> Result<(), Fail> {
    for (name, stranger) in strangers() {
        let mut ends = Ends::of_machine(rt.alloc(), 40, 20, 4)?;
        assert!(rt; ends.passes(0, 3), "{name}");
        assert_eq!(rt;
            ends.permit(stranger),
            Some(Fed::Stranger(stranger)),
            "{name}"
        );
        expect_move(&rt, ends.kernel().history(), 3);
        assert!(rt; ends.passes(3, 4), "{name}");
        expect_move(&rt, ends.kernel().history(), 4);
    }
    Ok(())
}

// Whether each event finds room in the ring.
fn push_all(ends: &mut Ends, events: &[FedEvent]) -> bool {
    for event in events {
        if ends.push(*event).is_err() {
            return false;
        }
    }
    true
}

// Whether promoting hands this stranger back.
fn is_handed_back(stranger: FedEvent, ends: Ends) -> bool {
    let Err(found) = ends.promote() else {
        return false;
    };
    found == stranger
}

#[test]
fn promoting_hands_the_first_stranger_back(rt: HostRuntime) -> Result<(), Fail> {
    for (name, stranger) in strangers() {
        let mut ends = Ends::of_machine(rt.alloc(), 40, 20, 4)?;
        let events = [event(0), stranger, event(1)];
        assert!(rt; push_all(&mut ends, &events), "{name}");
        assert!(rt; is_handed_back(stranger, ends), "{name}");
    }
    Ok(())
}

#[test]
fn what_finds_no_room_is_a_stranger(rt: HostRuntime) -> Result<(), Fail> {
    for (cycles, entries) in [(6, 20), (40, 7)] {
        let mut ends = Ends::of_machine(rt.alloc(), cycles, entries, 4)?;
        assert!(rt; ends.passes(0, 7));
        assert_eq!(rt; ends.permit(event(7)), Some(Fed::Stranger(event(7))));
        expect_move(&rt, ends.kernel().history(), 7);
    }
    Ok(())
}
