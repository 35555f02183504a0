// Steps while they are counted.

ghost use Rattle.std.specs.Prelude.{◌≡◌, ◌+◌, ◌*◌, OnOk, IfOk};
ghost use Rattle.iec_costs.specs.Steps as spec;

use iec_grammar::Pile;
use motion_numbers::OutOfMemory;
use std::alloc::Global;
use std::marker::Model;

/// The most steps of a program's scan.
pub const MOST_STEPS: u64 = 1_000_000;

/// A FOR that holds what is read: how often its body runs, the steps of the body so far, and the
/// line where the FOR begins.
#[derive(Clone, Copy)]
pub struct Frame {
    pub turns: u128,
    pub body: u64,
    pub line: u64,
}

/// The steps of a program so far. Contracts see them as a `Counted`.
#[derive(Drop)]
pub struct Steps {
    frames: Pile<Frame>,
    before: u64,
}

impl Model for Steps {
    ghost use Rattle.iec_costs.specs.Steps.{Counted};

    ghost Value = { Counted };

    ghost view = { λ s. record { frames = s.frames; before = s.before } };
}

// A sum of steps.
#[tactic(auto, unfolding(crate::specs::Steps::capped))]
fn sum(steps: u64, more: u64) -> u64
    ensures { result ≡ spec.capped (steps + more) }
{
    steps.saturating_add(more).min(MOST_STEPS + 1)
}

// The turns of a FOR with the steps of its body.
#[tactic(auto, unfolding(crate::specs::Steps::steps_of, crate::specs::Steps::capped))]
fn steps_of(frame: &Frame) -> u64
    ensures { result ≡ spec.steps_of frame.now }
{
    let each = u128::from(frame.body) + 1;
    frame
        .turns
        .saturating_mul(each)
        .min(u128::from(MOST_STEPS) + 1) as u64
}

impl Steps {
    /// No step.
    pub fn new(alloc: Global) -> Steps
        ensures { result ≡ spec.none_counted }
    {
        Steps {
            frames: Pile::new(alloc),
            before: 0,
        }
    }

    /// So many steps more.
    #[tactic(auto, unfolding(crate::specs::Steps::with_steps))]
    pub fn add(&mut self, steps: u64) -> Result<(), OutOfMemory>
        ensures { OnOk result (self.new ≡ spec.with_steps steps self.old) }
    {
        match self.frames.pop() {
            Some(frame) => self.frames.push(Frame {
                body: sum(frame.body, steps),
                ..frame
            }),
            None => {
                self.before = sum(self.before, steps);
                Ok(())
            }
        }
    }

    /// A FOR begins, whose body runs so often.
    pub fn open(&mut self, turns: u128, line: u64) -> Result<(), OutOfMemory>
        ensures { OnOk result (self.new ≡ spec.opened turns line self.old) }
    {
        self.frames.push(Frame {
            turns,
            body: 0,
            line,
        })
    }

    /// The innermost FOR ends: where it began, unless there is none.
    #[tactic(auto, unfolding(crate::specs::Steps::closed))]
    pub fn close(&mut self) -> Result<Option<u64>, OutOfMemory>
        ensures closed { OnOk result (self.new ≡ spec.closed self.old) }
        ensures line { IfOk result (λ line. line ≡ spec.line_of self.old.frames) }
    {
        let Some(frame) = self.frames.pop() else {
            return Ok(None);
        };
        self.add(steps_of(&frame))?;
        Ok(Some(frame.line))
    }

    /// Whether the program has more steps than it may. Inside of a FOR it never has.
    #[tactic(auto, unfolding(crate::specs::Steps::is_beyond))]
    pub fn is_beyond(&self) -> bool
        ensures { result ≡ spec.is_beyond self.now }
    {
        self.frames.is_empty() && MOST_STEPS < self.before
    }
}
