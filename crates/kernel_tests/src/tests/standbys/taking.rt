// A standby whose first kernel is given up.

ghost use Rattle.std.specs.Prelude.{◌≡◌};

use crate::tests::standbys::machine::{Ends, MOVE, event, expect_move, machine};
use hot_standby::{DriveIn, Fed, FedEvent, Kernel, Standby};
use kernel_uses::{try_call, try_cycle};
use plc_types::NO_OUTPUT;
use std::alloc::Global;
use std::test::Fail;
use std::thread;

// A kernel with the small machine, and the ends of a ring whose standby has it too.
fn two_kernels(alloc: Global) -> Result<(Kernel, Ends), Fail> {
    let config = machine(alloc, 40, 20)?;
    let first = Kernel::open(alloc, config.copy(alloc)?)?;
    Ok((first, Ends::open(alloc, config, 4)?))
}

// Makes an event of the move on a kernel, where it fits it.
fn makes(kernel: &mut Kernel, event: &FedEvent) -> bool {
    match event {
        FedEvent::Call {
            instance,
            inputs,
            ..
        } => try_call(kernel, *instance, inputs).is_ok(),
        FedEvent::Cycle { ins, .. } => makes_cycle(kernel, &ins[..1]),
        FedEvent::End { task } => makes_end(kernel, *task),
    }
}

// Makes a cycle of a kernel with one axis.
fn makes_cycle(kernel: &mut Kernel, ins: &[DriveIn]) -> bool {
    if kernel.config().axes().len() != 1 || ins.len() != 1 {
        return false;
    }
    let mut outs = [NO_OUTPUT];
    try_cycle(kernel, ins, &mut outs).is_ok()
}

// Ends a task that is there.
fn makes_end(kernel: &mut Kernel, task: u8) -> bool {
    if kernel.room_left() == 0 || task as usize >= kernel.config().tasks().len() {
        return false;
    }
    kernel.end(task);
    true
}

// Makes the first events of the move on both kernels.
fn makes_on_both(first: &mut Kernel, ends: &mut Ends, count: usize) -> bool {
    for place in 0..count {
        let is_made = makes(first, &event(place));
        let passed = ends.permit(event(place));
        if !is_made || passed != Some(Fed::Applied) {
            return false;
        }
    }
    true
}

// Makes the events of the move from a place on.
fn makes_rest(kernel: &mut Kernel, from: usize) -> bool {
    for place in from..MOVE.len() {
        if !makes(kernel, &event(place)) {
            return false;
        }
    }
    true
}

// The second kernel, where no stranger is met.
fn promoted(ends: Ends) -> Result<Kernel, Fail> {
    let Ok(second) = ends.promote() else {
        return Err(Fail::new("a stranger"));
    };
    Ok(second)
}

#[test]
fn the_first_kernel_is_given_up_after_three_events(rt: HostRuntime) -> Result<(), Fail> {
    let (mut first, mut ends) = two_kernels(rt.alloc())?;
    assert!(rt; makes_on_both(&mut first, &mut ends, 3));
    expect_move(&rt, first.history(), 3);
    drop(first);
    expect_move(&rt, ends.kernel().history(), 3);
    assert!(rt; ends.passes(3, MOVE.len()));
    assert_eq!(rt; ends.take(), Fed::Empty);
    let second = promoted(ends)?;
    expect_move(&rt, second.history(), MOVE.len());
    Ok(())
}

#[test]
fn a_promoted_kernel_goes_on(rt: HostRuntime) -> Result<(), Fail> {
    let mut ends = Ends::of_machine(rt.alloc(), 40, 20, 4)?;
    for place in 0..4 {
        assert!(rt; ends.push(event(place)).is_ok());
    }
    assert_eq!(rt; ends.take(), Fed::Applied);
    let mut second = promoted(ends)?;
    expect_move(&rt, second.history(), 4);
    assert!(rt; makes_rest(&mut second, 4));
    expect_move(&rt, second.history(), MOVE.len());
    Ok(())
}

// Takes this many events, each of which is made.
fn take_all(mut standby: Standby, count: usize) -> (Standby, usize)
    ensures { result.0.ring ≡ standby.ring }
{
    let mut made = 0usize;
    for _ in 0..count {
        if standby.take() == Fed::Applied {
            made = made.wrapping_add(1);
        }
    }
    (standby, made)
}

#[test]
fn takes_in_a_thread_of_its_own(rt: HostRuntime) -> Result<(), Fail> {
    let mut ends = Ends::of_machine(rt.alloc(), 40, 20, 16)?;
    for place in 0..MOVE.len() {
        assert!(rt; ends.push(event(place)).is_ok());
    }
    let (mut feed, standby) = ends.into_ends();
    let ((mut standby, made), ()) = thread::join(
        &rt,
        move || -> (Standby, usize)
            ensures { result.0.ring ≡ standby.ring }
        { take_all(standby, MOVE.len()) },
        || (),
    );
    assert_eq!(rt; made, MOVE.len());
    assert_eq!(rt; standby.beside(&mut feed), 0);
    expect_move(&rt, standby.kernel().history(), MOVE.len());
    Ok(())
}
