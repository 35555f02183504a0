// Rings between a kernel and a drive: each end looks again where it knows of nothing, and two
// threads pass outputs and answers, and the end.
mod threads;

ghost use Rattle.std.specs.Prelude.{◌≡◌, ◌≤◌, ◌+◌, ◌^◌, ◌<◌, [], length, false};

use setpoint_ring::{
    DriveEnd, DriveIn, DriveOut, KernelEnd, MOST_OUTPUTS, MOST_ROOM, Numbered, OutOfMemory, ring,
};
use std::alloc::Global;
use std::test::Fail;

// The output of this number, by which each is distinguished from the others.
fn output(number: u32) -> Numbered<DriveOut>
    ensures { result.number ≡ number }
{
    Numbered {
        number,
        item: DriveOut {
            controlword: (number % 65_536) as u16,
            mode: 8,
            target: (number % 1_000_000) as i32,
        },
    }
}

// The answer of this number.
fn answer(number: u32) -> Numbered<DriveIn>
    ensures { result.number ≡ number }
{
    Numbered {
        number,
        item: DriveIn {
            statusword: (number % 65_536) as u16,
            mode_display: 8,
            actual: (number % 1_000_000) as i32,
        },
    }
}

// A kernel's end that numbers what it sends.
#[derive(Drop)]
struct Kernel {
    end: KernelEnd,
    sent: u32,
    ghost counted: { sent ≡ length end.sent },
    ghost open: { end.ended ≡ false },
}

impl Kernel {
    // Sends the next output, where a slot is free.
    fn send(&mut self) -> bool
        ensures { self.new.end.ring ≡ self.old.end.ring }
    {
        if self.sent >= MOST_OUTPUTS {
            return false;
        }
        let sent = self.end.push(output(self.sent + 1)).is_ok();
        if sent {
            self.sent += 1;
        }
        sent
    }

    fn take(&mut self) -> Option<Numbered<DriveIn>>
        ensures { self.new.end.ring ≡ self.old.end.ring }
    {
        self.end.take()
    }
}

// A drive's end that numbers what it sends.
#[derive(Drop)]
struct Drive {
    end: DriveEnd,
    sent: u32,
    ghost counted: { sent ≡ length end.sent },
}

impl Drive {
    // Sends the next answer, where a slot is free.
    fn send(&mut self) -> bool
        ensures { self.new.end.ring ≡ self.old.end.ring }
    {
        if self.sent >= MOST_OUTPUTS {
            return false;
        }
        let sent = self.end.push(answer(self.sent + 1)).is_ok();
        if sent {
            self.sent += 1;
        }
        sent
    }

    fn take(&mut self) -> Option<Numbered<DriveOut>>
        ensures { self.new.end.ring ≡ self.old.end.ring }
    {
        self.end.take()
    }

    fn has_ended(&mut self) -> bool
        ensures { self.new.end.ring ≡ self.old.end.ring }
    {
        self.end.ended()
    }
}

// The two ends of a ring, in one thread.
#[derive(Drop)]
struct Pair {
    kernel: Kernel,
    drive: Drive,
    ghost pair: { kernel.end.ring ≡ drive.end.ring },
}

impl Pair {
    fn new(alloc: Global, room: u32) -> Result<Pair, OutOfMemory>
        requires { (1 ≤ room) × (room ≤ MOST_ROOM) }
    {
        let (kernel, drive) = ring(alloc, room)?;
        Ok(Pair {
            kernel: Kernel {
                end: kernel,
                sent: 0,
            },
            drive: Drive {
                end: drive,
                sent: 0,
            },
        })
    }

    // Sends this many outputs and answers, as far as slots are free, and returns how many each in
    // all.
    fn send(&mut self, outputs: u32, answers: u32) -> (u32, u32) {
        for _ in 0..outputs {
            self.kernel.send();
        }
        for _ in 0..answers {
            self.drive.send();
        }
        (self.kernel.sent, self.drive.sent)
    }

    fn take_output(&mut self) -> Option<Numbered<DriveOut>> {
        self.drive.take()
    }

    fn take_answer(&mut self) -> Option<Numbered<DriveIn>> {
        self.kernel.take()
    }
}

#[test]
fn looks_again_where_it_knows_of_none(rt: HostRuntime) -> Result<(), Fail> {
    let mut pair = Pair::new(rt.alloc(), 1)?;
    for number in [1, 2, 3] {
        assert_eq!(rt; pair.send(1, 1), (number, number));
        assert_eq!(rt; pair.take_output(), Some(output(number)));
        assert_eq!(rt; pair.take_answer(), Some(answer(number)));
    }
    Ok(())
}
