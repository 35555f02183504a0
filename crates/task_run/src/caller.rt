// Who makes the calls of a task.

ghost use Rattle.std.specs.Prelude.{◌≡◌, ◌<◌, false, true, length, IfNone, IfSome};
ghost use Rattle.motion_history.specs.Calls.{IsCall};
ghost use Rattle.plc_program.specs.Programs.{IsBlockOf};
ghost use Rattle.task_run.specs.Callers.{MakesCall};

use plc_types::{Inputs, Outputs};
use std::sync::Wait;

/// A call that was made.
#[derive(Clone, Copy)]
pub struct LoggedCall {
    /// The number of the block.
    pub instance: u16,
    pub inputs: Inputs,
    pub reply: Outputs,
    /// How many cycles came before its entry.
    pub cycles: u32,
}

/// Makes the calls of a task, one after another, until one is refused. Contracts see it as a
/// `CallerState`: it gives its configuration, its task, each call that was made with its reply and
/// the number of cycles before it, whether a rest is asked for, and whether a call was refused.
pub trait Caller {
    /// The type of what no call and no rest changes.
    type Fixed;

    ghost use Rattle.task_run.specs.Callers.{CallerState};

    // What no call and no rest changes.
    ghost fixed: { Self → Self.Fixed };

    // What the caller gives.
    ghost told: { Self → CallerState };

    /// Calls a block of the task and gives the reply, or none where the call is refused. After a
    /// rest it waits for a cycle.
    fn call<R: Wait>(&mut self, rt: &R, instance: u16, inputs: &Inputs) -> Option<Outputs>
        requires own { IsBlockOf (told self.old).config (told self.old).task instance }
        requires call { IsCall (told self.old).config instance inputs.now }
        requires unrefused { (told self.old).refused ≡ false }
        ensures made { IfSome result
            (MakesCall (told self.old) instance inputs.now (told self.new)) }
        ensures refused { IfNone result
            (told self.new ≡ record (told self.old) { refused = true }) }
        ensures fixed { fixed self.new ≡ fixed self.old };

    /// Asks for a rest: the next call has more cycles before it than the last.
    fn rest(&mut self)
        requires made { 0 < length (told self.old).calls }
        ensures rests { told self.new ≡ record (told self.old) { rests = true } }
        ensures fixed { fixed self.new ≡ fixed self.old };
}
