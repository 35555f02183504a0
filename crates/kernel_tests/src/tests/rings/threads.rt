// Two threads that have the ends of a ring.

ghost use Rattle.std.specs.Prelude.{◌≡◌};

use super::{Drive, Kernel, Pair, answer, output};
use setpoint_ring::{DriveIn, KernelEnd, KernelLog, Numbered, beside};
use std::process::Abort;
use std::sync::Wait;
use std::test::Fail;
use std::thread;

impl Kernel {
    // The next answer. Until it comes, outputs are sent, as many as that in all.
    fn wait_for_answer<R: Wait>(&mut self, rt: &R, count: u32) -> Numbered<DriveIn>
        ensures { self.new.end.ring ≡ self.old.end.ring }
    {
        for _ in rt.forever() {
            if self.sent < count {
                self.send();
            }
            if let Some(next) = self.take() {
                return next;
            }
            thread::yield_now();
        }
        unreachable!()
    }

    // Sends this many outputs and takes as many answers, each in its order and once.
    fn pass_all<R: Wait + Abort>(mut self, rt: &R, count: u32) -> KernelEnd
        ensures { result.ring ≡ self.end.ring }
    {
        for number in 1..=count {
            let next = self.wait_for_answer(rt, count);
            assert_eq!(rt; next, answer(number));
        }
        let mut end = self.end;
        end.end();
        end
    }

    // Sends this many outputs, and the end right after the last of them.
    fn send_all<R: Wait>(mut self, rt: &R, count: u32) -> KernelEnd
        ensures { result.ring ≡ self.end.ring }
    {
        for _ in rt.forever() {
            if self.sent >= count {
                break;
            }
            if !self.send() {
                thread::yield_now();
            }
        }
        let mut end = self.end;
        end.end();
        end
    }
}

impl Drive {
    // Answers each output, which come in their order and once, until the end.
    fn answer_all<R: Wait + Abort>(mut self, rt: &R) -> Drive
        ensures { result.end.ring ≡ self.end.ring }
    {
        let mut number = 0u32;
        for _ in rt.forever() {
            let Some(next) = self.take() else {
                if self.has_ended() {
                    return self;
                }
                thread::yield_now();
                continue;
            };
            number = number.wrapping_add(1);
            assert_eq!(rt; next, output(number));
            for _ in rt.forever() {
                if self.send() {
                    break;
                }
                thread::yield_now();
            }
        }
        unreachable!()
    }

    // Takes the outputs, which come in their order and once, until the end.
    fn take_all<R: Wait + Abort>(mut self, rt: &R) -> Drive
        ensures { result.end.ring ≡ self.end.ring }
    {
        let mut number = 0u32;
        for _ in rt.forever() {
            if let Some(next) = self.take() {
                number = number.wrapping_add(1);
                assert_eq!(rt; next, output(number));
            } else if self.has_ended() {
                return self;
            }
        }
        unreachable!()
    }
}

#[test]
fn two_threads_pass_items_both_ways(rt: HostRuntime) -> Result<(), Fail> {
    let count = 10_000;
    let Pair { kernel, drive, .. } = Pair::new(rt.alloc(), 2)?;
    let shared = &rt;
    let (mut kernel, mut drive) = thread::join(
        &rt,
        move || -> KernelEnd
            ensures { result.ring ≡ kernel.end.ring }
        { kernel.pass_all(shared, count) },
        move || -> Drive
            ensures { result.end.ring ≡ drive.end.ring }
        { drive.answer_all(shared) },
    );
    assert_eq!(rt; beside(&mut kernel, &mut drive.end), (0, 0));
    let log = KernelLog {
        sent: count,
        taken: count,
    };
    assert_eq!(rt; kernel.finish(), log);
    expect_log(&rt, drive, count)
}

// The drive took this many outputs, in their order and each once, and sent as many answers.
fn expect_log(rt: &impl Abort, drive: Drive, count: u32) -> Result<(), Fail> {
    if drive.sent == 0 {
        return Err(Fail::new("the drive sent nothing"));
    }
    let log = drive.end.finish();
    assert_eq!(rt;
        (log.sent, log.taken, log.took.len()),
        (count, count, count)
    );
    assert_eq!(rt; log.last, answer(count).item);
    for place in 0..count {
        assert_eq!(rt; log.took.get(place), Some(&output(place + 1).item));
    }
    assert_eq!(rt; log.took.get(count), None);
    Ok(())
}

#[test]
fn leaves_no_output_where_the_end_is_right_behind_it(rt: HostRuntime) -> Result<(), Fail> {
    for round in 0..2_000 {
        let count = round % 4 + 1;
        let Pair { kernel, drive, .. } = Pair::new(rt.alloc(), 2)?;
        let shared = &rt;
        let (mut kernel, mut drive) = thread::join(
            &rt,
            move || -> KernelEnd
                ensures { result.ring ≡ kernel.end.ring }
            { kernel.send_all(shared, count) },
            move || -> Drive
                ensures { result.end.ring ≡ drive.end.ring }
            { drive.take_all(shared) },
        );
        assert_eq!(rt;
            beside(&mut kernel, &mut drive.end),
            (0, 0),
            "round {round}"
        );
        assert_eq!(rt; kernel.finish().sent, count, "round {round}");
    }
    Ok(())
}
