// The stack machine that makes the acts of a task's code.

ghost use Rattle.std.specs.Prelude.{◌≡◌, ◌<◌, if◌then◌else◌, vec_len, vec_capacity};
ghost use Rattle.machine_words.specs.Units.{IsCycle};
ghost use Rattle.st_exec.specs.Acting.{IsPut, IsTaken, Performs, Uses};

use crate::given::{begun, give_number};
use crate::instruction::{Act, Use};
use crate::listed::set_at;
use crate::values::{contrary_of, is_true, joined, negative_of, shown_of, value_at};
use plc_types::{Inputs, Outputs};

/// What the acts of a task's code work on.
#[derive(Drop)]
pub struct Machine {
    /// The stack, with its top at the end, in room that is reserved.
    pub stack: Vec<i32>,
    /// The inputs of a call, as far as they are given.
    pub inputs: Inputs,
    pub vars: Vec<i32>,
    /// The last reply of each block.
    pub last: Vec<Outputs>,
}

// Puts a value on the stack; no instruction is passed.
fn put(stack: &mut Vec<i32>, value: i32) -> usize
    requires { vec_len stack.old < vec_capacity stack.old }
    ensures put { IsPut value stack.old stack.new }
    ensures none { result ≡ 0 }
{
    stack.push_reserved(value);
    0
}

// Takes the value on top, where there is one.
fn take(stack: &mut Vec<i32>) -> Option<i32>
    ensures { IsTaken result stack.old stack.new }
{
    stack.pop()
}

impl Machine {
    /// Makes an act, where a cycle has this many microseconds; says how many instructions it
    /// passes.
    pub fn perform(&mut self, cycle_us: u32, act: Act) -> usize
        requires cycle { IsCycle cycle_us }
        requires room { vec_len self.old.stack < vec_capacity self.old.stack }
        ensures { Performs cycle_us act self.old result self.new }
    {
        match act {
            Act::Push(value) => put(&mut self.stack, value),
            Act::Load(x) => put(&mut self.stack, value_at(self.vars.as_slice(), x as usize)),
            Act::Show { instance, flag } => {
                put(
                    &mut self.stack,
                    shown_of(self.last.as_slice(), instance, flag),
                )
            }
            Act::Choose(mode) => {
                self.inputs.mode = mode;
                0
            }
            Act::Follow(axis) => {
                self.inputs.master = axis;
                0
            }
            Act::Pass(passed) => passed,
            Act::Take(how) => match take(&mut self.stack) {
                Some(value) => self.make_use(cycle_us, how, value),
                None => 0,
            },
        }
    }

    // Uses a value that was taken.
    fn make_use(&mut self, cycle_us: u32, how: Use, value: i32) -> usize
        requires cycle { IsCycle cycle_us }
        requires room { vec_len self.old.stack < vec_capacity self.old.stack }
        ensures { Uses cycle_us how value self.old result self.new }
    {
        match how {
            Use::Negate => put(&mut self.stack, negative_of(value)),
            Use::Invert => put(&mut self.stack, contrary_of(value)),
            Use::Join(operator) => match take(&mut self.stack) {
                Some(first) => put(&mut self.stack, joined(operator, first, value)),
                None => 0,
            },
            Use::Store(x) => {
                set_at(self.vars.as_mut_slice(), x as usize, value);
                0
            }
            Use::Begin => {
                self.inputs = begun(is_true(value));
                0
            }
            Use::Give(key) => {
                give_number(&mut self.inputs, cycle_us, key, value);
                0
            }
            Use::Unless(passed) => passed_where(!is_true(value), passed),
            Use::Match { value: wanted, .. } if value == wanted => 0,
            Use::Match { passed, .. } => {
                put(&mut self.stack, value);
                passed
            }
            Use::Forget => 0,
        }
    }
}

// This many instructions, where they are passed.
fn passed_where(passes: bool, passed: usize) -> usize
    ensures { result ≡ (if passes then passed else 0) }
{
    if passes { passed } else { 0 }
}
